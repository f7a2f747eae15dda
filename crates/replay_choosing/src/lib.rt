// Choices that the Rust was asked about, compared. A case's inputs are pel, shift, pnew and radius, a record's 12 words, its luma
// and its chroma table, which is not scaled yet, and the average; its answers are x, y, SAD and the average.
#![tactic(auto)]

ghost use Rattle.std.specs.Prelude.{◌≡◌, true, ◌≤◌, ◌<◌, length, IfSome};
ghost use Rattle.choosing.specs.Bounds.{Small, Ranged, Served};
ghost use Rattle.records.specs.Packing.{pairs_fit};
ghost use Rattle.cases.specs.Places.{IsSized};
ghost use Rattle.cases.specs.Samples.{limited_to};
ghost use Rattle.replay_choosing.specs.Sizes.{slots_of, choose_inputs};

use cases::Case;
use choosing::{Choice, Span};
use records::Record;
use whole::wrap32;

// How many entries a table has.
fn slots(radius: i64) -> Option<usize>
    ensures { IfSome result (λ n. (n ≡ slots_of (limited_to 3 radius)) × (n ≤ 50)) }
{
    let side = 2 * cases::up_to(radius, 3)? + 1;
    Some(1 + side * side)
}

// What chroma is scaled by, 4^shift.
fn scale(shift: i64) -> Option<u32>
    ensures { IfSome result (λ scale. scale ≤ 4) }
{
    match shift {
        0 => Some(1),
        1 => Some(4),
        _ => None,
    }
}

// No accepted block's cost is over 262,143 before it is scaled.
fn cost(number: i64) -> Option<u32>
    ensures { IfSome result (λ cost. cost < 262144) }
{
    u32::try_from(number).ok().filter(|cost| *cost < 262144)
}

// The table of these costs, scaled.
fn table(costs: &[i64], scale: u32) -> Option<[u32; 50]>
    requires { (length costs.now ≤ 50) × (scale ≤ 4) }
    ensures { IfSome result Small }
{
    let mut table = [0; 50];
    for (slot, number) in costs.iter().enumerate() {
        table[slot] = cost(*number)? * scale;
    }
    Some(table)
}

fn choice_of(given: Record, pnew: i32, pel: i32) -> Choice
    requires { pairs_fit given ≡ true }
    ensures { Ranged result }
{
    Choice {
        x: given.predictor.first,
        y: given.predictor.second,
        least_x: given.window_x.first,
        greatest_x: given.window_x.second,
        least_y: given.window_y.first,
        greatest_y: given.window_y.second,
        lambda: given.lambda,
        pnew,
        pel,
    }
}

// Whether the window is one that can be walked.
fn served(choice: Choice) -> bool
    requires { Ranged choice }
    ensures { result ≡ true → Served choice }
{
    let across = Span {
        least: choice.least_x,
        greatest: choice.greatest_x,
    };
    let down = Span {
        least: choice.least_y,
        greatest: choice.greatest_y,
    };
    let (columns, rows) = (across.count(), down.count());
    columns.min(rows) == 0 || columns.max(rows) <= 7
}

// The answers to these inputs. Where a number is out of range there are none.
fn answers(inputs: &[i64]) -> Option<[i64; 4]>
    ensures { IfSome result (λ _. length inputs.now ≡ choose_inputs inputs.now) }
{
    let [pel, shift, pnew, radius, asked @ .., average] = inputs else {
        return None;
    };
    let (words, costs) = asked.split_first_chunk::<12>()?;
    let scale = scale(*shift)?;
    let n = slots(*radius)?;
    if costs.len() != 2 * n {
        return None;
    }
    let (luma, chroma) = costs.split_at(n);
    let luma = table(luma, 1)?;
    let chroma = table(chroma, scale)?;
    let given = record_slice::record_at(&words.map(wrap32), 0);
    let choice = choice_of(given, wrap32(*pnew), wrap32(*pel));
    let bad = window::is_bad(given);
    let negative = window::is_negative(given);
    if bad && !served(choice) {
        return None;
    }
    let chosen = choice.select(bad, negative, given.sad, &luma, &chroma);
    Some([
        i64::from(chosen.x),
        i64::from(chosen.y),
        i64::from(chosen.sad),
        *average,
    ])
}

pub fn choose_agrees(case: &Case) -> bool
    ensures { result ≡ true → IsSized (choose_inputs case.now.inputs.now) 4 case.now }
{
    let Some(answers) = answers(case.inputs) else {
        return false;
    };
    case.answered(&answers)
}
