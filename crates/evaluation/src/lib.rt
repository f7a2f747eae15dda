// Evaluating: the refusals in the table's order, and then the best of every record.
#![tactic(auto)]

ghost use Rattle.std.specs.Prelude.{◌≡◌, ◌++◌, ◌+◌, ◌*◌, ◌/◌, ◌≤◌, length, drop};
ghost use Rattle.std.proofs.Math.Seq.{paste};
ghost use Rattle.limits.specs.Sizes.{words_per_record, numbers_per_best};
ghost use Rattle.limits.specs.Limits.{radius_of};
ghost use Rattle.refusals.specs.Numbers.{outcome};
ghost use Rattle.evaluation.specs.Refusals.{holds1, reference_holds, references_hold, holds2, has_room, refusal_of};
ghost use Rattle.evaluation.specs.Evaluated.{task_of, best_list, bests_upto, evaluate_answer, evaluate_bests};
ghost use Rattle.evaluation.specs.Asked.{FairAll, Searched};
ghost use Rattle.record_slice.specs.RecordSlice.{any_wide};

use best::{Best, Task};
use five_numbers::Five;
use plane::Place;
use planes::{Planes, Samples, Sides};
use refusals::Refusal;

// Stays numbers and flags, laid out as C lays it out: a host hands it over by value.
#[repr(C)]
#[derive(Clone, Copy)]
pub struct Request {
    pub measure: bool,
    pub block: Sides,
    pub shift: Sides,
    pub search_param: i32,
    pub pnew: i32,
    pub pel: i32,
    pub source: Planes,
    pub reference: Planes,
}

fn task_of(request: Request) -> Task
    ensures { result ≡ task_of request }
{
    Task {
        measure: request.measure,
        block: request.block,
        shift: request.shift.x,
        pnew: request.pnew,
        pel: request.pel,
        source: request.source,
        reference: request.reference,
    }
}

// ---- refusals
fn holds_1(request: Request) -> bool
    ensures { result ≡ holds1 request }
{
    limits::is_block(request.block.x, request.block.y) & whole::within(request.search_param, -3, 3)
}

// A reference plane has the source's sides and the plan's pel.
fn reference_holds(pel: i32, source: Place, reference: Place) -> bool
    ensures { result ≡ reference_holds pel source reference }
{
    reference.within_limits()
        & (reference.width == source.width)
        & (reference.height == source.height)
        & (reference.pel == pel)
}

fn references_hold(pel: i32, source: Planes, reference: Planes) -> bool
    ensures { result ≡ references_hold pel source reference }
{
    reference_holds(pel, source.luma, reference.luma)
        & reference_holds(pel, source.u, reference.u)
        & reference_holds(pel, source.v, reference.v)
}

fn holds_2(request: Request) -> bool
    ensures { result ≡ holds2 request }
{
    limits::is_pel(request.pel)
        & limits::are_shifts(request.shift.x, request.shift.y)
        & limits::is_frame_side(request.source.luma.width)
        & limits::is_frame_side(request.source.luma.height)
        & planes::planes_hold(request.source, request.shift)
        & references_hold(request.pel, request.source, request.reference)
}

fn has_room(words: usize, bests: usize) -> bool
    ensures { result ≡ has_room words bests }
{
    (words % limits::WORDS_PER_RECORD == 0)
        & (limits::NUMBERS_PER_BEST * (words / limits::WORDS_PER_RECORD) <= bests)
}

fn any_too_wide(request: Request, records: &[i32]) -> bool
    requires { Searched request }
    ensures { result ≡ any_wide (radius_of request.search_param) records.now (length records.now / words_per_record) }
{
    let radius = limits::radius_of(request.search_param);
    record_slice::any_wide(records, radius, records.len() / limits::WORDS_PER_RECORD)
}

// The lowest number that applies is given. Each test may lean on those before it.
fn accepted(
    request: Request,
    records: &[i32],
    source: Samples,
    reference: Samples,
    bests: usize,
) -> Result<(), Refusal>
    ensures { result ≡ outcome (refusal_of request records.now (length source.entry.luma.now) (length source.entry.u.now) (length source.entry.v.now) (length reference.entry.luma.now) (length reference.entry.u.now) (length reference.entry.v.now) bests) }
{
    if !holds_1(request) {
        return Err(Refusal::Setting);
    }
    if !holds_2(request) {
        return Err(Refusal::Limit);
    }
    if !planes::holds_3(request.source, source) {
        return Err(Refusal::PlaneLength);
    }
    if !planes::holds_3(request.reference, reference) {
        return Err(Refusal::PlaneLength);
    }
    if !has_room(records.len(), bests) {
        return Err(Refusal::OutputLength);
    }
    if any_too_wide(request, records) {
        return Err(Refusal::Window);
    }
    Ok(())
}

// ---- writing
fn put(bests: &mut [i32], at: usize, five: Five)
    requires { at + numbers_per_best ≤ length bests.old }
    ensures { bests.new ≡ paste bests.old at (best_list five) numbers_per_best }
{
    let Best { x, y, sad, average } = five.best;
    let fifth = five_numbers::number_of(five.outside);
    put_numbers::put(bests, at, [x, y, sad, average, fifth]);
}

fn write_all(task: Task, records: &[i32], source: Samples, reference: Samples, bests: &mut [i32])
    requires fair_all { FairAll task records.now }
    requires words_per_record_in_bounds { numbers_per_best * (length records.now / words_per_record) ≤ length bests.old }
    ensures { bests.new ≡ bests_upto task records.now source.entry.luma.now source.entry.u.now source.entry.v.now reference.entry.luma.now reference.entry.u.now reference.entry.v.now (length records.now / words_per_record) ++ drop (numbers_per_best * (length records.now / words_per_record)) bests.old }
{
    // Stays by number: record i is asked for by it, and says where its five numbers go.
    for i in 0..records.len() / limits::WORDS_PER_RECORD {
        let given = record_slice::record_at(records, i);
        let five = five_numbers::five_of(task, given, source, reference);
        put(bests, limits::NUMBERS_PER_BEST * i, five);
    }
}

pub fn evaluate(
    request: Request,
    records: &[i32],
    source: Samples,
    reference: Samples,
    bests: &mut [i32],
) -> Result<(), Refusal>
    ensures value { result ≡ outcome (evaluate_answer request records.now source.entry.luma.now source.entry.u.now source.entry.v.now reference.entry.luma.now reference.entry.u.now reference.entry.v.now (length bests.old)) }
    ensures bests_after { bests.new ≡ evaluate_bests request records.now source.entry.luma.now source.entry.u.now source.entry.v.now reference.entry.luma.now reference.entry.u.now reference.entry.v.now bests.old }
{
    accepted(request, records, source, reference, bests.len())?;
    write_all(task_of(request), records, source, reference, bests);
    Ok(())
}
