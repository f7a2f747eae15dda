// A record's five numbers: its best, and how many of the reference's samples at the vector answered
// were never there. Only the reference is asked: what the source lacks is told by the record's offsets.
#![tactic(auto)]

ghost use Rattle.std.specs.Prelude.{◌≡◌};
ghost use Rattle.best.specs.Fair.{Fair};
ghost use Rattle.five_numbers.specs.Five.{luma_absent, chroma_absent, absent_at, number_of, five_of};
ghost use Rattle.five_numbers.specs.Asked.{Aimed};

use best::{Best, Task};
use plane_view::PlaneView;
use planes::Samples;
use records::Record;

// A best, and how many samples lie outside the data. A block that isn't bad was compared with nothing,
// and has no such number: not even 0.
#[derive(Clone, Copy)]
pub struct Five {
    pub best: Best,
    pub outside: Option<i32>,
}

// Luma, over the sides that are compared.
fn luma_absent(task: Task, given: Record, x: i32, y: i32, reference_luma: &[u8]) -> u32
    requires { Fair task given × Aimed x y }
    ensures { result ≡ luma_absent task given reference_luma.now x y }
{
    let reference = best::luma_reference(task, given);
    let at = reference.vector_offset(reference_luma, x, y);
    let w = best::width_of(task, given);
    let h = best::height_of(task, given);
    let view = PlaneView::new(reference_luma, reference.place);
    absent_reads::absent(view, at, w, h)
}

// U and V, both from U's offset, each with its own pitch and against its own data.
fn chroma_absent(task: Task, given: Record, x: i32, y: i32, reference: Samples) -> u32
    requires { Fair task given × Aimed x y }
    ensures { result ≡ chroma_absent task given reference.entry.u.now reference.entry.v.now x y }
{
    let at = best::chroma_reference(task, given).vector_offset(reference.u, x, y);
    let places = task.reference;
    let w = best::chroma_side(task.block.x, task.shift);
    let h = best::chroma_side(task.block.y, task.shift);
    let in_u = absent_reads::absent(PlaneView::new(reference.u, places.u), at, w, h);
    let in_v = absent_reads::absent(PlaneView::new(reference.v, places.v), at, w, h);
    in_u + in_v
}

// A negative block has no chroma.
fn absent_at(task: Task, given: Record, x: i32, y: i32, reference: Samples) -> u32
    requires { Fair task given × Aimed x y }
    ensures { result ≡ absent_at task given reference.entry.luma.now reference.entry.u.now reference.entry.v.now x y }
{
    let luma = luma_absent(task, given, x, y, reference.luma);
    if window::is_negative(given) {
        luma
    } else {
        luma + chroma_absent(task, given, x, y, reference)
    }
}

pub fn five_of(task: Task, given: Record, source: Samples, reference: Samples) -> Five
    requires { Fair task given }
    ensures { result ≡ five_of task given source.entry.luma.now source.entry.u.now source.entry.v.now reference.entry.luma.now reference.entry.u.now reference.entry.v.now }
{
    let best = best::best_of(task, given, source, reference);
    if window::is_bad(given) {
        let absent = absent_at(task, given, best.x, best.y, reference);
        Five {
            best,
            outside: Some(absent as i32),
        }
    } else {
        Five {
            best,
            outside: None,
        }
    }
}

// The number that is lent for it: -1 where there is none.
pub fn number_of(absences: Option<i32>) -> i32
    ensures { result ≡ number_of absences }
{
    absences.unwrap_or(-1)
}
