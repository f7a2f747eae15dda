// Serpentine positions, blocks and orders, and finishings that the Rust was asked about, compared. Each
// case's first two inputs are the grid's sides. A finishing goes on with the diagonal, whether output is
// asked for, how many entries there are, their indices and their bests; its answers are the vectors of the
// grid and, where it is asked for, the output. All were 0 before.
#![tactic(auto)]

ghost use Rattle.std.specs.Prelude.{◌≡◌, true, ◌+◌, ◌*◌, ◌<◌, ◌≤◌, length, IfSome};
ghost use Rattle.cases.specs.Places.{IsSized};
ghost use Rattle.replay_grid.specs.Sizes.{blocks_of, finish_inputs, finish_answers};

use cases::Case;
use refusals::Refusal;
use whole::wrap32;

pub fn serpentine_position_agrees(case: &Case) -> bool
    ensures { result ≡ true → IsSized 4 1 case.now }
{
    let Some(words) = case.words::<4>() else {
        return false;
    };
    let [nx, ny, bx, by] = words;
    let Ok(position) = serpentine::serpentine_position(nx, ny, bx, by) else {
        return false;
    };
    case.answered(&[position])
}

pub fn serpentine_block_agrees(case: &Case) -> bool
    ensures { result ≡ true → IsSized 3 2 case.now }
{
    let Some(words) = case.words::<3>() else {
        return false;
    };
    let [nx, ny, position] = words;
    let Ok((bx, by)) = serpentine::serpentine_block(nx, ny, position) else {
        return false;
    };
    case.answered(&[bx, by])
}

// How many blocks the grid has, of which a line has room for 4,096.
fn blocks(inputs: &[i64]) -> Option<usize>
    ensures { IfSome result (λ blocks. (blocks ≡ blocks_of inputs.now) × (0 < blocks) × (blocks ≤ 4096)) }
{
    let [nx, ny, ..] = inputs else {
        return None;
    };
    let blocks = cases::up_to(*nx, 4096)? * cases::up_to(*ny, 4096)?;
    (1..=4096).contains(&blocks).then_some(blocks)
}

// The order that is put into what is lent. One number less is too short: so the order fills it.
fn is_filled(nx: i32, ny: i32, order: &mut [i32]) -> bool
    requires { 0 < length order.old }
{
    let short = order.len() - 1;
    serpentine::serpentine_order(nx, ny, &mut order[..short]) == Err(Refusal::OutputLength)
        && serpentine::serpentine_order(nx, ny, order).is_ok()
}

pub fn serpentine_order_agrees(case: &Case) -> bool
    ensures { result ≡ true → IsSized 2 (2 * blocks_of case.now.inputs.now) case.now }
{
    let (Some(words), Some(blocks)) = (case.words::<2>(), blocks(case.inputs)) else {
        return false;
    };
    let [nx, ny] = words;
    let mut order = [7; 8192];
    let order = &mut order[..2 * blocks];
    is_filled(nx, ny, order) && case.answered(order)
}

// The first numbers as numbers of 32 bits; where there are no more, zeros.
fn words<const N: usize>(numbers: &[i64]) -> [i32; N] {
    let mut words = [0; N];
    for (word, number) in words.iter_mut().zip(numbers) {
        *word = wrap32(*number);
    }
    words
}

// How many numbers the vectors are, and the output, which has none where it is not asked for.
fn lengths(inputs: &[i64]) -> Option<(usize, usize)>
    ensures { IfSome result (λ lengths. (lengths.0 + lengths.1 ≡ finish_answers inputs.now) × (lengths.0 ≤ 75) × (lengths.1 ≤ 50)) }
{
    let [_, _, _, asked, ..] = inputs else {
        return None;
    };
    let blocks = blocks(inputs).filter(|blocks| *blocks <= 25)?;
    match asked {
        0 => Some((3 * blocks, 0)),
        1 => Some((3 * blocks, 2 * blocks)),
        _ => None,
    }
}

// The vectors, and behind them the output. A case with more blocks or entries than there is room for has none.
fn finished<'a>(inputs: &[i64], room: &'a mut [i32; 125]) -> Option<&'a [i32]>
    ensures inputs { IfSome result (λ _. length inputs.now ≡ finish_inputs inputs.now) }
    ensures answers { IfSome result (λ answers. length answers.now ≡ finish_answers inputs.now) }
{
    let [nx, ny, diagonal, asked, count, entries @ ..] = inputs else {
        return None;
    };
    let (vectors, output) = lengths(inputs)?;
    let end = vectors + output;
    let n = cases::up_to(*count, 50)?;
    if entries.len() != 6 * n {
        return None;
    }
    let (indices, bests) = entries.split_at(n);
    let (vectors, output) = room[..end].split_at_mut(vectors);
    finishing::finish(
        wrap32(*nx),
        wrap32(*ny),
        &words::<50>(indices)[..n],
        &words::<250>(bests)[..5 * n],
        wrap32(*diagonal),
        *asked == 1,
        vectors,
        output,
    )
    .ok()?;
    Some(&room[..end])
}

pub fn finish_agrees(case: &Case) -> bool
    ensures { result ≡ true → IsSized (finish_inputs case.now.inputs.now) (finish_answers case.now.inputs.now) case.now }
{
    let mut room = [0; 125];
    let Some(answers) = finished(case.inputs, &mut room) else {
        return false;
    };
    case.answered(answers)
}
