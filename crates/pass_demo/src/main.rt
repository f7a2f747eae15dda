// The whole pass on a small frame pair that is made here, shown as text: what each block was given,
// what was found, and where its samples came from. Anything on standard input asks for the plan
// alone, as a plan file of form 1.
#![tactic(auto)]

ghost use Rattle.std.specs.Prelude.{◌<◌};

use block::{Level, Search, Settings, Weights};
use evaluation::Request;
use plane::Place;
use planes::{Planes, Samples, Sides};
use planning::Made;
use records::{Offset, Pair, Record};
use refusals::Refusal;
use report_text::Text;

// ---- the frames: 48x32, with a bar 16 wide that stands 2 further right in the reference, and black
// from column 40 on
fn still(x: usize, y: usize) -> u8 {
    if 40 <= x {
        return 0;
    }
    (40 + x % 48 + y % 32) as u8
}

fn on_bar(across: usize, y: usize) -> u8 {
    (160 + (across % 16 * 4 + y % 32) % 31 * 3) as u8
}

fn luma_sample(x: usize, y: usize, left: usize) -> u8 {
    if x < left {
        return still(x, y);
    }
    if x - left < 16 {
        return on_bar(x - left, y);
    }
    still(x, y)
}

// One chroma sample stands for two columns of luma.
fn chroma_sample(x: usize, left: usize) -> u8 {
    if x < left {
        return 110;
    }
    if x - left < 16 {
        return 140;
    }
    110
}

fn luma_plane(left: usize) -> [u8; 1536] {
    let mut out = [0u8; 1536];
    for (i, sample) in out.iter_mut().enumerate() {
        *sample = luma_sample(i % 48, i / 48, left);
    }
    out
}

fn chroma_plane(left: usize) -> [u8; 384] {
    let mut out = [0u8; 384];
    for (i, sample) in out.iter_mut().enumerate() {
        *sample = chroma_sample(i % 24 * 2, left);
    }
    out
}

// ---- the numbers
fn sides(x: i32, y: i32) -> Sides {
    Sides { x, y }
}

fn place(width: i32, height: i32) -> Place {
    Place {
        base: 0,
        pitch: width,
        width,
        height,
        pel: 1,
    }
}

fn planes() -> Planes {
    Planes {
        luma: place(48, 32),
        u: place(24, 16),
        v: place(24, 16),
    }
}

// The level is the smallest, so that the blocks of the rim are halved.
fn settings() -> Settings {
    Settings {
        search: Search {
            exhaustive: true,
            search_param: 3,
        },
        weights: Weights {
            lambda: 1024,
            bad_sad: 300,
        },
        level: Level {
            smallest: true,
            need_luma: true,
            pel: 1,
        },
        block: sides(8, 8),
        grid: sides(6, 4),
        step: sides(8, 8),
        shift: sides(1, 1),
        planes: planes(),
    }
}

fn request() -> Request {
    Request {
        measure: false,
        block: sides(8, 8),
        shift: sides(1, 1),
        search_param: 3,
        pnew: 0,
        pel: 1,
        source: planes(),
        reference: planes(),
    }
}

// What a block was given: its predictor and SAD. Blocks are counted row by row.
fn give(vectors: &mut [i32; 72], block: usize, x: i32, y: i32, sad: i32)
    requires { block < 24 }
{
    vectors[3 * block] = x;
    vectors[3 * block + 1] = y;
    vectors[3 * block + 2] = sad;
}

// The bar covers columns 2 to 4 of the grid and moves by (2,0). Some of its blocks have that vector.
fn known() -> [i32; 72] {
    let mut vectors = [0i32; 72];
    give(&mut vectors, 2, 2, 0, 16);
    give(&mut vectors, 4, 2, 0, 16);
    give(&mut vectors, 15, 2, 0, 0);
    give(&mut vectors, 16, 2, 0, 64);
    give(&mut vectors, 22, 2, 0, 16);
    vectors
}

// The others have a wrong predictor, one of them too near the frame's edge, and a high SAD. Two lie in
// the black: the one in the corner has a predictor that leads out of the frame.
fn predictors() -> [i32; 72] {
    let mut vectors = known();
    give(&mut vectors, 3, 1, 0, 700);
    give(&mut vectors, 8, 0, 0, 2500);
    give(&mut vectors, 9, 0, 0, 2000);
    give(&mut vectors, 10, 6, 0, 3000);
    give(&mut vectors, 14, 0, 0, 2500);
    give(&mut vectors, 20, 0, 0, 400);
    give(&mut vectors, 21, 1, 0, 700);
    give(&mut vectors, 11, 0, 1, 400);
    give(&mut vectors, 23, 0, 40, 400);
    vectors
}

// ---- the text
// Stays with write_all: each line is a fixed text, and what varies in it is put by a `Text`, so that a
// writer beside would be no plainer.
fn spaces(count: usize) {
    for _ in 0..count {
        io::write_all(1, b" ");
    }
}

fn refused(refusal: Refusal) {
    io::write_all(1, b"refused ");
    io::print_decimal(1, u32::from(refusal) as u64);
    io::write_all(1, b"\n");
}

// At the right of a field so wide, if it is not wider itself.
fn at_right(text: &[u8], width: usize) {
    if text.len() < width {
        spaces(width - text.len());
    }
    io::write_all(1, text);
}

fn show_pair(x: i32, y: i32, width: usize) {
    let mut text = Text::<24>::new();
    text.put_two(b"", x, b",", y);
    at_right(text.as_bytes(), width);
}

fn show_number(number: i32, width: usize) {
    let mut text = Text::<24>::new();
    text.put_field(b"", number);
    at_right(text.as_bytes(), width);
}

// No planned offset is below zero.
fn number_of(at: i32) -> u32 {
    at.max(0) as u32
}

// The column and the row of the luma plane that an offset stands for.
fn column(at: u32) -> i32 {
    (at % 48) as i32
}

fn row(at: u32) -> i32 {
    (at / 48) as i32
}

// Where an offset lies in the luma plane, or that there is none.
fn show_offset(offset: Offset) {
    let Some(at) = offset else {
        at_right(b"none", 8);
        return;
    };
    let n = number_of(at);
    show_pair(column(n), row(n), 8);
}

fn lies_at(offset: Offset, pos: Pair) -> bool {
    let Some(at) = offset else {
        return false;
    };
    let n = number_of(at);
    (column(n) == pos.first) & (row(n) == pos.second)
}

// A halved block's samples all come from its overlay, where there is one.
fn read_from(given: Record) -> Offset {
    if window::is_negative(given) {
        given.overlay.or(given.full)
    } else {
        given.full
    }
}

// What became of a block, in the report's words, and `fine` for one that isn't bad.
fn show_outcome(given: Record) {
    if window::is_searched(given) {
        io::write_all(1, b" searched");
        return;
    }
    if window::is_kept(given) {
        io::write_all(1, b" kept");
        return;
    }
    io::write_all(1, b" fine");
}

// Of a bad block, whether its samples are those of its position.
fn show_reads(given: Record) {
    if !lies_at(given.average, given.pos) {
        io::write_all(1, b", moved");
    }
    if !lies_at(read_from(given), given.pos) {
        io::write_all(1, b", stale");
    }
}

fn show_story(given: Record) {
    if window::is_negative(given) {
        io::write_all(1, b"  half,");
    } else {
        io::write_all(1, b"  whole,");
    }
    show_outcome(given);
    if window::is_bad(given) {
        show_reads(given);
    }
    io::write_all(1, b"\n");
}

fn show_block(records: &[i32; 288], order: &[i32; 48], bests: &[i32; 120], k: usize)
    requires { k < 24 }
{
    let given = record_slice::record_at(records, k);
    show_pair(order[2 * k], order[2 * k + 1], 5);
    show_pair(given.predictor.first, given.predictor.second, 10);
    show_pair(
        bests[limits::NUMBERS_PER_BEST * k],
        bests[limits::NUMBERS_PER_BEST * k + 1],
        8,
    );
    show_number(bests[limits::NUMBERS_PER_BEST * k + 2], 7);
    show_number(bests[limits::NUMBERS_PER_BEST * k + 4], 7);
    show_offset(given.full);
    show_offset(given.overlay);
    show_offset(given.average);
    show_story(given);
}

fn show_blocks(records: &[i32; 288], order: &[i32; 48], bests: &[i32; 120]) {
    io::write_all(
        1,
        b"block predictor  chosen    SAD absent    full overlay average\n",
    );
    for k in 0..24 {
        show_block(records, order, bests, k);
    }
}

fn show_cell(vectors: &[i32; 72], block: usize)
    requires { block < 24 }
{
    show_pair(vectors[3 * block], vectors[3 * block + 1], 7);
    if block % 6 == 5 {
        io::write_all(1, b"\n");
    }
}

fn show_grid(vectors: &[i32; 72]) {
    for block in 0..24 {
        show_cell(vectors, block);
    }
}

// The bar is brighter than 127, and black is 0.
fn show_sample(sample: u8) {
    let shown = match sample {
        0 => b"_",
        1..=127 => b".",
        _ => b"#",
    };
    io::write_all(1, shown);
}

// One row of a plane.
fn show_row(luma: &[u8; 1536]) {
    for sample in &luma[768..816] {
        show_sample(*sample);
    }
    io::write_all(1, b"\n");
}

fn explain_absent() {
    io::write_all(
        1,
        b"`absent`: how many of the reference's samples at the vector chosen lie outside\n",
    );
    io::write_all(
        1,
        b"its data, -1 for a fine block. At the right all is black (`_`): 5,1 is searched,\n",
    );
    io::write_all(
        1,
        b"and matched with black; 5,3 is kept, has SAD 0 too, and its match has no sample.\n",
    );
}

fn explain() {
    io::write_all(
        1,
        b"A bar moves 2 to the right over a still background: vector 2,0. Blocks are\n",
    );
    io::write_all(
        1,
        b"8x8 (`whole`), on the rim 4x4 (`half`). A block with a low SAD is `fine`. Any\n",
    );
    io::write_all(
        1,
        b"other is `searched`: the vectors up to 3 from its predictor that stay in the\n",
    );
    io::write_all(
        1,
        b"frame are tried. Where there is none it is `kept`, with its predictor. `moved`:\n",
    );
    io::write_all(
        1,
        b"the predictor and 2 more reach the frame's edge, so samples are taken further\n",
    );
    io::write_all(
        1,
        b"in. `stale`: the bad block before was moved, and its samples are read, as in the\n",
    );
    io::write_all(
        1,
        b"Rust. `none`: no sample is there, which is not the number 0. Half blocks answer\n",
    );
    io::write_all(1, b"a tripled SAD.\n");
    explain_absent();
    io::write_all(1, b"\n");
}

// ---- the plan file
fn write_word(word: i32) {
    let mut bytes = [0u8; 4];
    little_endian::put_word(&mut bytes, word);
    io::write_all(1, &bytes);
}

// 48 x 24 bytes back, 24 records of 8x8, pel 1, radius 3, SAD, form 1.
fn write_trailer() {
    write_word(1152);
    write_word(24);
    write_word(8);
    write_word(8);
    write_word(1);
    write_word(3);
    write_word(0);
    write_word(1);
}

fn write_plan(records: &[i32; 288]) {
    for word in records {
        write_word(*word);
    }
    write_trailer();
}

fn show_frames(source: &[u8; 1536], reference: &[u8; 1536]) {
    explain();
    io::write_all(1, b"source     ");
    show_row(source);
    io::write_all(1, b"reference  ");
    show_row(reference);
}

fn show_pass(
    records: &[i32; 288],
    order: &[i32; 48],
    bests: &[i32; 120],
    before: &[i32; 72],
    after: &[i32; 72],
) {
    io::write_all(1, b"\nThe vectors before, block by block:\n");
    show_grid(before);
    io::write_all(
        1,
        b"\nThe pass, in its order, and where it reads (full, overlay, average):\n",
    );
    show_blocks(records, order, bests);
    io::write_all(1, b"\nThe vectors after:\n");
    show_grid(after);
}

// ---- the three steps
// U and V are alike.
fn samples<'a>(luma: &'a [u8; 1536], chroma: &'a [u8; 384]) -> Samples<'a> {
    Samples {
        luma,
        u: chroma,
        v: chroma,
    }
}

fn evaluated(records: &[i32; 288], bests: &mut [i32; 120]) -> Result<(), Refusal> {
    let luma = luma_plane(20);
    let chroma = chroma_plane(20);
    let reference_luma = luma_plane(22);
    let reference_chroma = chroma_plane(22);
    show_frames(&luma, &reference_luma);
    let source = samples(&luma, &chroma);
    let reference = samples(&reference_luma, &reference_chroma);
    evaluation::evaluate(request(), records, source, reference, bests)
}

fn finished(
    diagonal: i32,
    indices: &[i32; 24],
    bests: &[i32; 120],
    vectors: &mut [i32; 72],
) -> Result<(), Refusal> {
    let mut output = [0i32; 48];
    finishing::finish(6, 4, indices, bests, diagonal, true, vectors, &mut output)
}

// Of a plan that was made.
fn show_rest(
    diagonal: i32,
    order: &[i32; 48],
    records: &[i32; 288],
    indices: &[i32; 24],
) -> Result<(), Refusal> {
    let before = predictors();
    let mut vectors = before;
    let mut bests = [0i32; 120];
    evaluated(records, &mut bests)?;
    finished(diagonal, indices, &bests, &mut vectors)?;
    show_pass(records, order, &bests, &before, &vectors);
    Ok(())
}

fn planned(
    order: &[i32; 48],
    records: &mut [i32; 288],
    indices: &mut [i32; 24],
) -> Result<Made, Refusal> {
    let luma = luma_plane(20);
    let chroma = chroma_plane(20);
    let vectors = predictors();
    let source = samples(&luma, &chroma);
    planning::plan(settings(), order, &vectors, source, records, indices)
}

fn show(plan_alone: bool) -> Result<(), Refusal> {
    let mut order = [0i32; 48];
    let mut records = [0i32; 288];
    let mut indices = [0i32; 24];
    serpentine::serpentine_order(6, 4, &mut order)?;
    let made = planned(&order, &mut records, &mut indices)?;
    if plan_alone {
        write_plan(&records);
        return Ok(());
    }
    show_rest(made.diagonal, &order, &records, &indices)
}

fn main() {
    let mut asked = [0u8; 1];
    let n = io::read_full(0, &mut asked);
    if let Err(refusal) = show(0 < n) {
        refused(refusal);
    }
}
