// Costs of two blocks, scores and roots that the Rust was asked about, compared; costs and scores
// through the functions that a host calls. A cost's inputs are the measure, the sides and the samples of
// both blocks, row by row; a score's the vector, SAD, diagonal and average.
#![tactic(auto)]

ghost use Rattle.std.specs.Prelude.{◌≡◌, true, ◌+◌, ◌*◌, length, IfSome};
ghost use Rattle.cases.specs.Places.{IsSized};
ghost use Rattle.replay_measures.specs.Sizes.{samples_of};

use cases::Case;
use hirupango::{hirupango_block_cost, hirupango_packed_score};
use whole::wrap32;

pub fn root_agrees(case: &Case) -> bool
    ensures { result ≡ true → IsSized 1 1 case.now }
{
    let Some(words) = case.words::<1>() else {
        return false;
    };
    let [n] = words;
    let Ok(n) = u32::try_from(n) else {
        return false;
    };
    case.answered(&[whole::root(n)])
}

pub fn score_agrees(case: &Case) -> bool
    ensures { result ≡ true → IsSized 5 1 case.now }
{
    let Some(words) = case.words::<5>() else {
        return false;
    };
    let [x, y, sad, diagonal, average] = words;
    let mut out = [0; 4];
    let number = hirupango_packed_score(x, y, sad, diagonal, average, &mut out);
    number == 0 && case.answered(&[i32::from_le_bytes(out)])
}

// The samples of both blocks, where there are as many as the sides say.
fn blocks(inputs: &[i64]) -> Option<(&[i64], &[i64])>
    ensures { IfSome result (λ _. length inputs.now ≡ 3 + 2 * samples_of inputs.now) }
{
    let [_, width, height, samples @ ..] = inputs else {
        return None;
    };
    let area = cases::limited(*width, 16) * cases::limited(*height, 16);
    if samples.len() != 2 * area {
        return None;
    }
    Some(samples.split_at(area))
}

pub fn cost_agrees(case: &Case) -> bool
    ensures { result ≡ true → IsSized (3 + 2 * samples_of case.now.inputs.now) 1 case.now }
{
    let [measure, width, height, ..] = case.inputs else {
        return false;
    };
    let Some((a, b)) = blocks(case.inputs) else {
        return false;
    };
    let width = wrap32(*width);
    let mut out = [0; 4];
    let number = hirupango_block_cost(
        wrap32(*measure),
        width,
        wrap32(*height),
        &cases::bytes::<256>(a),
        width,
        &cases::bytes::<256>(b),
        width,
        &mut out,
    );
    number == 0 && case.answered(&[i32::from_le_bytes(out)])
}
