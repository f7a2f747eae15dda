// One axis of a block's plan: the limits of its predictor, how far the predictor lies outside them,
// where the block's samples are then taken, and the window that is searched.
#![tactic(auto)]

ghost use Rattle.std.specs.Prelude.{◌≡◌};
ghost use Rattle.whole.specs.Interval.{Within};
ghost use Rattle.axis.specs.Axis.{least_of, end_of, margin_of, excess_by, excess_of, place_of, window_of};
ghost use Rattle.axis.specs.Bounds.{Bounded};

use records::Pair;

// Stays without an invariant: the definitions of specs/ take an axis of any numbers, and what its functions ask (`Bounded`) is in their clauses.
#[derive(Clone, Copy)]
pub struct Axis {
    pub pel: i32,
    pub frame: i32,
    pub origin: i32,
    pub side: i32,
    pub predictor: i32,
    pub radius: i32,
}

fn least(axis: Axis) -> i32
    requires { Bounded axis }
    ensures { result ≡ least_of axis }
{
    0 - axis.pel * axis.origin
}

fn end(axis: Axis) -> i32
    requires { Bounded axis }
    ensures { result ≡ end_of axis }
{
    axis.pel * (axis.frame - axis.origin - axis.side)
}

fn margin(v: i32) -> i32
    requires { Within 32768 32767 v }
    ensures { result ≡ margin_of v }
{
    if v < 0 { v - 2 } else { v + 2 }
}

// How far v lies outside the limits; 0 inside.
fn excess_by(v: i32, min: i32, max: i32) -> i32
    requires { Within 32770 32769 v × (Within 65536 65536 min × Within 65600 65600 max) }
    ensures { result ≡ excess_by v min max }
{
    if v < min {
        v - min
    } else if max <= v {
        v - max + 1
    } else {
        0
    }
}

pub fn excess(axis: Axis) -> i32
    requires { Bounded axis }
    ensures { result ≡ excess_of axis }
{
    let v = margin(axis.predictor);
    let min = least(axis);
    let max = end(axis);
    excess_by(v, min, max)
}

// The excess is in pel steps and is taken from pixels: so does the Rust.
pub fn place(axis: Axis, moves: bool) -> i32
    requires { Bounded axis }
    ensures { result ≡ place_of moves axis }
{
    if moves {
        let over = excess(axis);
        whole::lesser(
            whole::greater(axis.origin - over, 0),
            axis.frame - axis.side,
        )
    } else {
        axis.origin
    }
}

pub fn window(axis: Axis, place: i32) -> Pair
    requires { Bounded axis × Within 16384 16384 place }
    ensures { result ≡ window_of axis place }
{
    let min = least(axis);
    let max = end(axis);
    let d = axis.origin - place;
    let first = whole::greater(axis.predictor - axis.radius, min - whole::lesser(d, 0));
    let second = whole::lesser(axis.predictor + axis.radius, max - whole::greater(d, 0) - 1);
    Pair { first, second }
}
