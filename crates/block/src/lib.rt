// One block's plan: its shape, whether it is bad, which slot its samples come from, its record.
#![tactic(auto)]

ghost use Rattle.std.specs.Prelude.{◌≡◌, Bool};
ghost use Rattle.whole.specs.Interval.{Within};
ghost use Rattle.plane.specs.Places.{pel1_of};
ghost use Rattle.axis.specs.Bounds.{Bounded};
ghost use Rattle.block.specs.Shapes.{rim_of, negative_of, axis_of, shape_of, lambda_of, is_bad, moves_of, chroma_place, spot_of};
ghost use Rattle.block.specs.Steps.{filled_with, settled_at, flags_of, quiet_record, scaled_pair, bad_record, bad_step, luma_step, quiet_step, step_of};
ghost use Rattle.block.specs.Asked.{Addressed, Shaped, SpotHeld, Held, Ready};

use axis::Axis;
use plane::Place;
use plane_view::PlaneView;
use planes::{Planes, Samples, Sides};
use records::{Offset, Pair, Record};
use slots::{Slots, Source};

// Stays numbers and flags, laid out as C lays them out: a host hands settings over by value.
#[repr(C)]
#[derive(Clone, Copy)]
pub struct Search {
    pub exhaustive: bool,
    pub search_param: i32,
}

#[repr(C)]
#[derive(Clone, Copy)]
pub struct Weights {
    pub lambda: i32,
    pub bad_sad: i32,
}

#[repr(C)]
#[derive(Clone, Copy)]
pub struct Level {
    pub smallest: bool,
    pub need_luma: bool,
    pub pel: i32,
}

#[repr(C)]
#[derive(Clone, Copy)]
pub struct Settings {
    pub search: Search,
    pub weights: Weights,
    pub level: Level,
    pub block: Sides,
    pub grid: Sides,
    pub step: Sides,
    pub shift: Sides,
    pub planes: Planes,
}

// A block of the order: its column and row in the grid, and the vector and SAD that it has so far.
#[derive(Clone, Copy)]
pub struct Block {
    pub x: i32,
    pub y: i32,
    pub px: i32,
    pub py: i32,
    pub sad: i32,
}

#[derive(Clone, Copy)]
pub struct Shape {
    pub across: Axis,
    pub down: Axis,
    pub negative: bool,
}

// A place in the luma plane, and the one in the chroma planes that goes with it.
#[derive(Clone, Copy)]
pub struct Spot {
    pub x: i32,
    pub y: i32,
    pub cx: i32,
    pub cy: i32,
}

#[derive(Clone, Copy)]
pub struct Step {
    pub made: Record,
    pub slots: Slots,
}

// ---- the shape
fn on_rim(place: i32, count: i32) -> bool
    requires { Within 0 2048 count }
    ensures { result ≡ rim_of place count }
{
    (place <= 0) | (count - 1 <= place)
}

fn is_negative(level: Level, grid: Sides, block: Block) -> bool
    requires { Within 0 2048 grid.x × Within 0 2048 grid.y }
    ensures { result ≡ negative_of level grid block }
{
    level.smallest & (on_rim(block.x, grid.x) | on_rim(block.y, grid.y))
}

fn axis_of(
    pel: i32,
    frame: i32,
    step: i32,
    side: i32,
    place: i32,
    predictor: i32,
    radius: i32,
    negative: bool,
) -> Axis
    requires { Within 16 16 step × (Within 0 16 side × Within 2048 2048 place) }
    ensures { result ≡ axis_of pel frame step side place predictor radius negative }
{
    let origin = place * step;
    let plain = Axis {
        pel,
        frame,
        origin,
        side,
        predictor,
        radius,
    };
    if negative {
        Axis {
            origin: origin + (side >> 2),
            side: side >> 1,
            ..plain
        }
    } else {
        plain
    }
}

fn shape_of(s: Settings, block: Block) -> Shape
    requires { Shaped s block }
    ensures { result ≡ shape_of s block }
{
    let negative = is_negative(s.level, s.grid, block);
    let radius = limits::radius_of(s.search.search_param);
    let pel = s.level.pel;
    let luma = s.planes.luma;
    let Block { x, y, px, py, .. } = block;
    Shape {
        across: axis_of(
            pel, luma.width, s.step.x, s.block.x, x, px, radius, negative,
        ),
        down: axis_of(
            pel,
            luma.height,
            s.step.y,
            s.block.y,
            y,
            py,
            radius,
            negative,
        ),
        negative,
    }
}

// ---- lambda, and whether the block is bad
fn lambda_of(weights: Weights, negative: bool) -> i32
    ensures { result ≡ lambda_of weights negative }
{
    let quarter = records::quarter(weights.lambda);
    if negative {
        records::third(quarter)
    } else {
        quarter
    }
}

fn is_bad(weights: Weights, negative: bool, sad: i32) -> bool
    ensures { result ≡ is_bad weights negative sad }
{
    let limit = if negative {
        records::third(weights.bad_sad)
    } else {
        weights.bad_sad
    };
    limit < sad
}

// ---- where the samples are taken
fn is_moved(shape: Shape) -> bool
    requires { Bounded shape.across × Bounded shape.down }
    ensures { result ≡ moves_of shape }
{
    let x = axis::excess(shape.across);
    let y = axis::excess(shape.down);
    (x != 0) | (y != 0)
}

fn chroma_place(origin: i32, place: i32, shift: i32) -> i32
    requires { Within 16384 16384 origin × Within 16384 16384 place }
    ensures { result ≡ chroma_place origin place shift }
{
    limits::shifted(origin, shift) - limits::shifted(origin - place, shift)
}

fn spot_of(shape: Shape, shift: Sides, moves: bool) -> Spot
    requires { Bounded shape.across × Bounded shape.down }
    ensures { result ≡ spot_of shift moves shape }
{
    let x = axis::place(shape.across, moves);
    let y = axis::place(shape.down, moves);
    let cx = chroma_place(shape.across.origin, x, shift.x);
    let cy = chroma_place(shape.down.origin, y, shift.y);
    Spot { x, y, cx, cy }
}

// ---- the slots
// A plane's offset, by a view of its bytes. What they are doesn't count.
fn offset_at(bytes: &[u8], place: Place, x: i32, y: i32) -> i32
    requires { Addressed place x y }
    ensures { result ≡ pel1_of place x y }
{
    PlaneView::new(bytes, place).pel1(x as i64, y as i64) as i32
}

// The active slot is written with a place.
fn filled(samples: Samples, planes: Planes, negative: bool, spot: Spot, slots: Slots) -> Slots
    requires { SpotHeld planes negative spot }
    ensures { result ≡ filled_with planes negative spot slots }
{
    let Spot { x, y, cx, cy } = spot;
    let written = slots::after_luma(slots, negative, offset_at(samples.luma, planes.luma, x, y));
    if negative {
        return written;
    }
    slots::after_chroma(
        written,
        offset_at(samples.u, planes.u, cx, cy),
        offset_at(samples.v, planes.v, cx, cy),
    )
}

fn settled(
    samples: Samples,
    planes: Planes,
    negative: bool,
    moves: bool,
    spot: Spot,
    slots: Slots,
) -> Slots
    requires { SpotHeld planes negative spot }
    ensures { result ≡ settled_at planes negative moves spot slots }
{
    if moves {
        let switched = slots::moved(slots);
        filled(samples, planes, negative, spot, switched)
    } else {
        slots::inside(slots)
    }
}

// ---- the record
fn flags_of(bad: bool, negative: bool) -> i32
    ensures { result ≡ flags_of bad negative }
{
    i32::from(bad) + 2 * i32::from(negative)
}

fn quiet_record(block: Block, negative: bool, lambda: i32, average: Offset) -> Record
    ensures { result ≡ quiet_record block negative lambda average }
{
    let zero = Pair {
        first: 0,
        second: 0,
    };
    let empty = Pair {
        first: 0,
        second: -1,
    };
    Record {
        full: None,
        overlay: None,
        u: None,
        v: None,
        average,
        pos: zero,
        cpos: zero,
        predictor: Pair {
            first: block.px,
            second: block.py,
        },
        window_x: empty,
        window_y: empty,
        sad: block.sad,
        lambda,
        flags: flags_of(false, negative),
    }
}

fn scaled(pel: i32, x: i32, y: i32) -> Pair
    requires { Within 4 4 pel × (Within 65536 65536 x × Within 65536 65536 y) }
    ensures { result ≡ scaled_pair pel x y }
{
    Pair {
        first: pel * x,
        second: pel * y,
    }
}

fn bad_record(
    block: Block,
    shape: Shape,
    spot: Spot,
    lambda: i32,
    source: Source,
    average: Offset,
) -> Record
    requires { Held shape spot }
    ensures { result ≡ bad_record block shape spot lambda source average }
{
    let pel = shape.across.pel;
    let Spot { x, y, cx, cy } = spot;
    Record {
        full: source.full,
        overlay: source.half,
        u: source.u,
        v: source.v,
        average,
        pos: scaled(pel, x, y),
        cpos: scaled(pel, cx, cy),
        predictor: Pair {
            first: block.px,
            second: block.py,
        },
        window_x: axis::window(shape.across, x),
        window_y: axis::window(shape.down, y),
        sad: block.sad,
        lambda,
        flags: flags_of(true, shape.negative),
    }
}

// ---- the three kinds of block
fn bad_step(
    samples: Samples,
    planes: Planes,
    shift: Sides,
    block: Block,
    shape: Shape,
    lambda: i32,
    slots: Slots,
) -> Step
    requires bounded { Bounded shape.across × Bounded shape.down }
    requires spot_held { (moves : Bool) → SpotHeld planes shape.negative (spot_of shift moves shape) }
    ensures { result ≡ bad_step planes shift block shape lambda slots }
{
    let negative = shape.negative;
    let own = spot_of(shape, shift, false);
    let written = filled(samples, planes, negative, own, slots);
    let moves = is_moved(shape);
    let spot = spot_of(shape, shift, moves);
    let slots = settled(samples, planes, negative, moves, spot, written);
    let source = slots::active(slots);
    let average = Some(offset_at(samples.luma, planes.luma, own.x, own.y));
    let made = bad_record(block, shape, spot, lambda, source, average);
    Step { made, slots }
}

// A block that isn't bad, where luma is needed: it writes luma alone, and no slot is switched.
fn luma_step(
    luma: &[u8],
    place: Place,
    block: Block,
    shape: Shape,
    lambda: i32,
    slots: Slots,
) -> Step
    requires { Addressed place shape.across.origin shape.down.origin }
    ensures { result ≡ luma_step place block shape lambda slots }
{
    let negative = shape.negative;
    let at = offset_at(luma, place, shape.across.origin, shape.down.origin);
    let slots = slots::after_luma(slots, negative, at);
    let made = quiet_record(block, negative, lambda, Some(at));
    Step { made, slots }
}

fn quiet_step(block: Block, negative: bool, lambda: i32, slots: Slots) -> Step
    ensures { result ≡ quiet_step block negative lambda slots }
{
    let made = quiet_record(block, negative, lambda, None);
    Step { made, slots }
}

pub fn plan_block(s: Settings, samples: Samples, block: Block, slots: Slots) -> Step
    requires { Ready s block }
    ensures { result ≡ step_of s block slots }
{
    let shape = shape_of(s, block);
    let negative = shape.negative;
    let lambda = lambda_of(s.weights, negative);
    if is_bad(s.weights, negative, block.sad) {
        bad_step(samples, s.planes, s.shift, block, shape, lambda, slots)
    } else if s.level.need_luma {
        luma_step(samples.luma, s.planes.luma, block, shape, lambda, slots)
    } else {
        quiet_step(block, negative, lambda, slots)
    }
}
