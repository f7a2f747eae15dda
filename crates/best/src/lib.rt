// One block's best: its vector, its SAD and its average, from its record and the planes.
#![tactic(auto)]

ghost use Rattle.std.specs.Prelude.{◌≡◌, true, ◌^◌, nat_abs};
ghost use Rattle.whole.specs.Interval.{Within};
ghost use Rattle.limits.specs.Limits.{shifted_by};
ghost use Rattle.window.specs.Windows.{is_bad};
ghost use Rattle.plane.specs.Places.{Placed};
ghost use Rattle.choosing.specs.Bounds.{Small};
ghost use Rattle.tables.specs.Bounds.{Nearby, Most};
ghost use Rattle.best.specs.Best.{searched_of, width_of, height_of, choice_of, luma_reference, luma_table, chroma_reference, chroma_offsets, plane_table, chroma_table, average_at, answered, best_of};
ghost use Rattle.best.specs.Fair.{Fair};

use choosing::Choice;
use distance::Rows;
use plane::{Packed, Place};
use plane_view::PlaneView;
use planes::{Planes, Samples, Sides};
use records::{Offset, Record};
use tables::Reference;

// What all records share. The shift is the horizontal one.
// Stays beside the record, also where both travel together: a struct of the two would be made anew for
// each record, and taken apart wherever one of them is read.
// Stays without an invariant: `Fair` is of both, and what `choice_of` and the references promise, they
// promise of any.
#[derive(Clone, Copy)]
pub struct Task {
    pub measure: bool,
    pub block: Sides,
    pub shift: i32,
    pub pnew: i32,
    pub pel: i32,
    pub source: Planes,
    pub reference: Planes,
}

#[derive(Clone, Copy)]
pub struct Best {
    pub x: i32,
    pub y: i32,
    pub sad: i32,
    pub average: i32,
}

fn choice_of(task: Task, given: Record) -> Choice
    ensures { result ≡ choice_of task given }
{
    Choice {
        x: given.predictor.first,
        y: given.predictor.second,
        least_x: given.window_x.first,
        greatest_x: given.window_x.second,
        least_y: given.window_y.first,
        greatest_y: given.window_y.second,
        lambda: given.lambda,
        pnew: task.pnew,
        pel: task.pel,
    }
}

// ---- sides and pitches
fn natural(z: i32) -> usize
    requires { Within 0 65536 z }
    ensures { result ≡ nat_abs z }
{
    z as usize
}

fn searched(negative: bool, side: i32) -> usize
    requires { Within 0 16 side }
    ensures { result ≡ searched_of negative side }
{
    natural(if negative { side >> 1 } else { side })
}

pub fn width_of(task: Task, given: Record) -> usize
    requires { Fair task given }
    ensures { result ≡ width_of task given }
{
    searched(window::is_negative(given), task.block.x)
}

pub fn height_of(task: Task, given: Record) -> usize
    requires { Fair task given }
    ensures { result ≡ height_of task given }
{
    searched(window::is_negative(given), task.block.y)
}

pub fn chroma_side(side: i32, shift: i32) -> usize
    requires { Within 0 16 side }
    ensures { result ≡ nat_abs (shifted_by side shift) }
{
    natural(limits::shifted(side, shift))
}

fn scale_of(shift: i32) -> u32
    requires { Within 0 1 shift }
    ensures { result ≡ 4 ^ nat_abs shift }
{
    if shift < 1 { 1 } else { 4 }
}

// ---- luma
pub fn luma_reference(task: Task, given: Record) -> Reference
    ensures { result ≡ luma_reference task given }
{
    Reference {
        place: task.reference.luma,
        x: given.pos.first,
        y: given.pos.second,
        shift: 0,
    }
}

fn luma_table(task: Task, given: Record, luma: &[u8], reference_luma: &[u8]) -> [u32; 50]
    requires { Fair task given × (is_bad given ≡ true) }
    ensures value { result ≡ luma_table task given luma.now reference_luma.now }
    ensures small { Small result }
{
    let w = width_of(task, given);
    let h = height_of(task, given);
    let source = Rows {
        bytes: luma,
        pitch: natural(task.source.luma.pitch),
    };
    let block = plane::source_block(
        source,
        given.full,
        given.overlay,
        natural(task.block.x),
        natural(task.block.y),
        h * w,
    );
    let reference = luma_reference(task, given);
    let choice = choice_of(task, given);
    let offsets = reference.offsets(reference_luma, choice);
    let packed = Packed {
        samples: &block,
        w,
        h,
    };
    let view = PlaneView::new(reference_luma, reference.place);
    tables::costs(task.measure, packed, view, &offsets, choice)
}

// ---- chroma
pub fn chroma_reference(task: Task, given: Record) -> Reference
    ensures { result ≡ chroma_reference task given }
{
    Reference {
        place: task.reference.u,
        x: given.cpos.first,
        y: given.cpos.second,
        shift: task.shift,
    }
}

// Worked out once, by the view of U's bytes with U's place. V is read at the same numbers.
fn chroma_offsets(task: Task, given: Record, reference_u: &[u8]) -> [i64; 50]
    requires { Fair task given × (is_bad given ≡ true) }
    ensures value { result ≡ chroma_offsets task given }
    ensures nearby { Nearby result }
{
    let reference = chroma_reference(task, given);
    let choice = choice_of(task, given);
    reference.offsets(reference_u, choice)
}

// One chroma plane's table: its origin and place in the source, and its own place in the reference.
fn plane_table(
    task: Task,
    given: Record,
    origin: Offset,
    source: Place,
    own: Place,
    samples: &[u8],
    reference: &[u8],
    offsets: &[i64; 50],
) -> [u32; 50]
    requires fair { Fair task given × (is_bad given ≡ true) }
    requires placed { Placed source × Placed own }
    requires offsets_value { (offsets.now ≡ chroma_offsets task given) × Nearby offsets.now }
    ensures value { result ≡ plane_table task given origin source own samples.now reference.now }
    ensures most { Most 130560 result }
{
    let w = chroma_side(task.block.x, task.shift);
    let h = chroma_side(task.block.y, task.shift);
    let rows = Rows {
        bytes: samples,
        pitch: natural(source.pitch),
    };
    let block = plane::gather_from(rows, origin, w, h);
    let packed = Packed {
        samples: &block,
        w,
        h,
    };
    let choice = choice_of(task, given);
    let view = PlaneView::new(reference, own);
    tables::costs(task.measure, packed, view, offsets, choice)
}

fn chroma_table(task: Task, given: Record, source: Samples, reference: Samples) -> [u32; 50]
    requires { Fair task given × (is_bad given ≡ true) }
    ensures value { result ≡ chroma_table task given source.entry.u.now source.entry.v.now reference.entry.u.now reference.entry.v.now }
    ensures small { Small result }
{
    let from = task.source;
    let to = task.reference;
    let at = chroma_offsets(task, given, reference.u);
    let us = plane_table(
        task,
        given,
        given.u,
        from.u,
        to.u,
        source.u,
        reference.u,
        &at,
    );
    let vs = plane_table(
        task,
        given,
        given.v,
        from.v,
        to.v,
        source.v,
        reference.v,
        &at,
    );
    tables::join(&us, &vs, scale_of(task.shift))
}

// ---- the average, and the answer
fn average_of(task: Task, given: Record, luma: &[u8]) -> i32
    requires { Fair task given }
    ensures { result ≡ average_at task given luma.now }
{
    let w = width_of(task, given);
    let h = height_of(task, given);
    let source = Rows {
        bytes: luma,
        pitch: natural(task.source.luma.pitch),
    };
    plane::average(source, given.average, w, h)
}

fn answer(task: Task, given: Record, lumas: &[u32; 50], chromas: &[u32; 50], average: i32) -> Best
    requires fair { Fair task given }
    requires small { Small lumas.now × Small chromas.now }
    ensures { result ≡ answered task given lumas.now chromas.now average }
{
    let choice = choice_of(task, given);
    let bad = window::is_bad(given);
    let negative = window::is_negative(given);
    let chosen = choice.select(bad, negative, given.sad, lumas, chromas);
    Best {
        x: chosen.x,
        y: chosen.y,
        sad: chosen.sad,
        average,
    }
}

// A block that isn't bad has no table, and a negative one none of chroma: no byte is read for these.
pub fn best_of(task: Task, given: Record, source: Samples, reference: Samples) -> Best
    requires { Fair task given }
    ensures { result ≡ best_of task given source.entry.luma.now source.entry.u.now source.entry.v.now reference.entry.luma.now reference.entry.u.now reference.entry.v.now }
{
    let average = average_of(task, given, source.luma);
    let none = [0u32; 50];
    if window::is_bad(given) {
        let lumas = luma_table(task, given, source.luma, reference.luma);
        if window::is_negative(given) {
            return answer(task, given, &lumas, &none, average);
        }
        let chromas = chroma_table(task, given, source, reference);
        return answer(task, given, &lumas, &chromas, average);
    }
    answer(task, given, &none, &none, average)
}
