// Asking for a level of a super frame: the refusals in their order, and then its three planes, as places or as
// numbers for a host. Of the bytes the lengths alone are looked at.
#![tactic(auto)]

ghost use Rattle.std.specs.Prelude.{◌≡◌, ◌+◌, ◌≤◌, ◌++◌, length, drop};
ghost use Rattle.std.proofs.Math.Seq.{paste};
ghost use Rattle.levels.specs.Refusals.{pitches_hold, raw_pitches_hold, holds2, has_sides, all_have_sides, lengths_kept, level_answer};
ghost use Rattle.refusals.specs.Numbers.{outcome};
ghost use Rattle.levels.specs.Numbers.{numbers_per_place, place_numbers, numbers_per_level, planes_numbers, given_number, given_numbers};
ghost use Rattle.levels.specs.Asked.{BasesFit};

use level_places::{Pitches, SuperFrame};
use plane::Place;
use planes::{Planes, Samples, Sides};
use refusals::Refusal;

fn pitches_hold(width: i32, shift: Sides, pitches: Pitches) -> bool
    ensures { result ≡ pitches_hold width shift pitches }
{
    let chroma = limits::shifted(width, shift.x);
    limits::is_pitch(width, pitches.luma)
        & limits::is_pitch(chroma, pitches.u)
        & limits::is_pitch(chroma, pitches.v)
}

// Of every raw plane that is lent. Beside a separate source the packed planes begin with level 1.
fn raw_pitches_hold(frame: SuperFrame) -> bool
    ensures { result ≡ raw_pitches_hold frame }
{
    let width = frame.frame.x;
    if !frame.separate {
        return pitches_hold(width, frame.shift, frame.pitch);
    }
    let packed_width = level_places::plane_size(width, 1);
    pitches_hold(packed_width, frame.shift, frame.pitch)
        & pitches_hold(width, frame.shift, frame.source_pitch)
}

fn holds_2(frame: SuperFrame) -> bool
    ensures { result ≡ holds2 frame }
{
    limits::is_frame_side(frame.frame.x)
        & limits::is_frame_side(frame.frame.y)
        & limits::is_pel(frame.pel)
        & limits::are_shifts(frame.shift.x, frame.shift.y)
        & raw_pitches_hold(frame)
}

fn has_sides(place: Place) -> bool
    ensures { result ≡ has_sides place }
{
    (place.width != 0) & (place.height != 0)
}

fn all_have_sides(planes: Planes) -> bool
    ensures { result ≡ all_have_sides planes }
{
    has_sides(planes.luma) & has_sides(planes.u) & has_sides(planes.v)
}

// Refusal 3, of the bytes that the planes are cut from. The others may be short.
fn lengths_kept(frame: SuperFrame, planes: Planes, packed: Samples, source: Samples) -> bool
    ensures { result ≡ lengths_kept frame (length packed.entry.luma.now) (length packed.entry.u.now) (length packed.entry.v.now) (length source.entry.luma.now) (length source.entry.u.now) (length source.entry.v.now) planes }
{
    if level_places::from_source(frame) {
        return planes::holds_3(planes, source);
    }
    planes::holds_3(planes, packed)
}

// A level outside its range is refused before any plane is cut.
pub fn level(frame: SuperFrame, packed: Samples, source: Samples) -> Result<Planes, Refusal>
    ensures { result ≡ level_answer frame (length packed.entry.luma.now) (length packed.entry.u.now) (length packed.entry.v.now) (length source.entry.luma.now) (length source.entry.u.now) (length source.entry.v.now) }
{
    if !holds_2(frame) {
        return Err(Refusal::Limit);
    }
    if !whole::within(frame.level, 0, 15) {
        return Err(Refusal::NoLevel);
    }
    let planes = level_places::planes_of(frame);
    if !all_have_sides(planes) {
        return Err(Refusal::NoLevel);
    }
    if !lengths_kept(frame, planes, packed, source) {
        return Err(Refusal::PlaneLength);
    }
    Ok(planes)
}

// ---- as numbers
const NUMBERS_PER_PLACE: usize = 5;

const NUMBERS_PER_LEVEL: usize = 3 * NUMBERS_PER_PLACE;

fn put_place(numbers: &mut [i32], at: usize, place: Place)
    requires numbers_per_place_in_bounds { at + numbers_per_place ≤ length numbers.old }
    requires base_bound { place.base ≤ 2147483647 }
    ensures { numbers.new ≡ paste numbers.old at (place_numbers place) numbers_per_place }
{
    let base = place.base as i32;
    put_numbers::put(
        numbers,
        at,
        [base, place.pitch, place.width, place.height, place.pel],
    );
}

// Luma's five numbers, U's and V's.
fn put_planes(numbers: &mut [i32], planes: Planes)
    requires numbers_per_level_in_bounds { numbers_per_level ≤ length numbers.old }
    requires bases_fit { BasesFit planes }
    ensures { numbers.new ≡ planes_numbers planes ++ drop numbers_per_level numbers.old }
{
    put_place(numbers, 0, planes.luma);
    put_place(numbers, NUMBERS_PER_PLACE, planes.u);
    put_place(numbers, 2 * NUMBERS_PER_PLACE, planes.v);
}

pub fn level_numbers(
    frame: SuperFrame,
    packed: Samples,
    source: Samples,
    numbers: &mut [i32],
) -> Result<(), Refusal>
    ensures value { result ≡ outcome (given_number (level_answer frame (length packed.entry.luma.now) (length packed.entry.u.now) (length packed.entry.v.now) (length source.entry.luma.now) (length source.entry.u.now) (length source.entry.v.now)) (length numbers.old)) }
    ensures numbers_after { numbers.new ≡ given_numbers (level_answer frame (length packed.entry.luma.now) (length packed.entry.u.now) (length packed.entry.v.now) (length source.entry.luma.now) (length source.entry.u.now) (length source.entry.v.now)) numbers.old }
{
    let planes = level(frame, packed, source)?;
    if numbers.len() < NUMBERS_PER_LEVEL {
        return Err(Refusal::OutputLength);
    }
    put_planes(numbers, planes);
    Ok(())
}
