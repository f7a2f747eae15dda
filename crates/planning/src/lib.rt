// Planning: the refusals in the table's order, and then the two passes over the order.
#![tactic(auto)]

ghost use Rattle.std.specs.Prelude.{◌≡◌, ◌+◌, ◌*◌, ◌≤◌, length};
ghost use Rattle.refusals.specs.Numbers.{outcome};
ghost use Rattle.planning.specs.Refusals.{block_count, holds1, axis_holds, sides_hold, holds2, vector_fits, vectors_fit, entry_holds, order_holds, has_room, refusal_of};
ghost use Rattle.planning.specs.Planned.{made_of, plan_answer, plan_records, plan_indices};
ghost use Rattle.planning.specs.Accepted.{Framed};

use block::Settings;
use planes::{Samples, Sides};
use refusals::Refusal;

// On 0: how many costs a block has at most, and the frame's diagonal.
#[derive(Clone, Copy)]
pub struct Made {
    pub slots: i32,
    pub diagonal: i32,
}

fn count_of(grid: Sides) -> usize
    ensures value { result ≡ block_count grid }
    ensures upper_bound { result ≤ 4611686018427387904 }
{
    limits::blocks_of(grid.x, grid.y)
}

fn holds_1(s: Settings, listed: usize) -> bool
    ensures { result ≡ holds1 s listed }
{
    s.search.exhaustive
        & limits::is_block(s.block.x, s.block.y)
        & (2 <= s.grid.x)
        & (2 <= s.grid.y)
        & (listed == 2 * count_of(s.grid))
        & whole::within(s.search.search_param, -3, 3)
}

// Of one axis. In 64 bits the end of the last block is not cut.
fn axis_holds(count: i32, step: i32, side: i32, frame: i32) -> bool
    ensures { result ≡ axis_holds count step side frame }
{
    let end = (count as i64 - 1) * (step as i64) + side as i64;
    limits::is_grid_side(count)
        & limits::is_step(side, step)
        & limits::is_frame_side(frame)
        & (end <= frame as i64)
}

fn sides_hold(s: Settings) -> bool
    ensures { result ≡ sides_hold s }
{
    let luma = s.planes.luma;
    axis_holds(s.grid.x, s.step.x, s.block.x, luma.width)
        & axis_holds(s.grid.y, s.step.y, s.block.y, luma.height)
}

fn holds_2(s: Settings, held: usize) -> bool
    ensures { result ≡ holds2 s held }
{
    sides_hold(s)
        & limits::is_pel(s.level.pel)
        & limits::are_shifts(s.shift.x, s.shift.y)
        & planes::planes_hold(s.planes, s.shift)
        & (held == 3 * count_of(s.grid))
}

fn vector_fits(vectors: &[i32], i: usize) -> bool
    requires { 3 * i + 3 ≤ length vectors.now }
    ensures { result ≡ vector_fits vectors.now i }
{
    whole::fits_i16(vectors[3 * i]) & whole::fits_i16(vectors[3 * i + 1])
}

fn vectors_fit(vectors: &[i32], n: usize) -> bool
    requires { 3 * n ≤ length vectors.now }
    ensures { result ≡ vectors_fit vectors.now n }
{
    (0..n).all(|i| vector_fits(vectors, i))
}

fn entry_holds(grid: Sides, order: &[i32], i: usize) -> bool
    requires { 2 * i + 2 ≤ length order.now }
    ensures { result ≡ entry_holds grid order.now i }
{
    let x = order[2 * i];
    let y = order[2 * i + 1];
    (0 <= x) & (x < grid.x) & (0 <= y) & (y < grid.y)
}

fn order_holds(grid: Sides, order: &[i32], n: usize) -> bool
    requires { 2 * n ≤ length order.now }
    ensures { result ≡ order_holds grid order.now n }
{
    (0..n).all(|i| entry_holds(grid, order, i))
}

fn has_room(n: usize, words: usize, indices: usize) -> bool
    requires { n ≤ 4194304 }
    ensures { result ≡ has_room n words indices }
{
    (limits::WORDS_PER_RECORD * n <= words) & (n <= indices)
}

// The lowest number that applies is given. Each test may lean on those before it.
fn accepted(
    s: Settings,
    order: &[i32],
    vectors: &[i32],
    samples: Samples,
    words: usize,
    indices: usize,
) -> Result<(), Refusal>
    ensures { result ≡ outcome (refusal_of s order.now vectors.now (length samples.entry.luma.now) (length samples.entry.u.now) (length samples.entry.v.now) words indices) }
{
    let n = count_of(s.grid);
    if !holds_1(s, order.len()) {
        return Err(Refusal::Setting);
    }
    if !holds_2(s, vectors.len()) {
        return Err(Refusal::Limit);
    }
    if !vectors_fit(vectors, n) {
        return Err(Refusal::Limit);
    }
    if !planes::holds_3(s.planes, samples) {
        return Err(Refusal::PlaneLength);
    }
    if !order_holds(s.grid, order, n) {
        return Err(Refusal::OutsideGrid);
    }
    if !has_room(n, words, indices) {
        return Err(Refusal::OutputLength);
    }
    if !passes::all_fit(s, order, vectors, samples, n) {
        return Err(Refusal::Misfit);
    }
    Ok(())
}

// What an accepted plan answers.
fn made_of(s: Settings) -> Made
    requires { Framed s }
    ensures { result ≡ made_of s }
{
    let luma = s.planes.luma;
    Made {
        slots: window::slots_of(limits::radius_of(s.search.search_param)),
        diagonal: score::diagonal(luma.width, luma.height, s.level.pel).unwrap(),
    }
}

pub fn plan(
    s: Settings,
    order: &[i32],
    vectors: &[i32],
    samples: Samples,
    records: &mut [i32],
    indices: &mut [i32],
) -> Result<Made, Refusal>
    ensures value { result ≡ plan_answer s order.now vectors.now (length samples.entry.luma.now) (length samples.entry.u.now) (length samples.entry.v.now) (length records.old) (length indices.old) }
    ensures records_after { records.new ≡ plan_records s order.now vectors.now (length samples.entry.luma.now) (length samples.entry.u.now) (length samples.entry.v.now) records.old (length indices.old) }
    ensures indices_after { indices.new ≡ plan_indices s order.now vectors.now (length samples.entry.luma.now) (length samples.entry.u.now) (length samples.entry.v.now) (length records.old) indices.old }
{
    accepted(s, order, vectors, samples, records.len(), indices.len())?;
    let n = count_of(s.grid);
    passes::write_all(s, order, vectors, samples, n, records, indices);
    Ok(made_of(s))
}
