// The levels of a super frame: how large a plane is at a level, where it starts in the raw plane that it is
// cut from, and the three planes of a level.
#![tactic(auto)]

ghost use Rattle.std.specs.Prelude.{◌≡◌, ◌≤◌};
ghost use Rattle.whole.specs.Interval.{Within};
ghost use Rattle.level_places.specs.Levels.{turns_of, size_after, plane_size, finest_rows, level_rows, reduced_rows, level_offset, from_source, level_pel, cut_at, place_of, planes_of};
ghost use Rattle.level_places.specs.Asked.{Rowed, Cuttable};

use plane::Place;
use planes::{Planes, Sides};

// Stays numbers and flags, laid out as C lays them out: a host hands a super frame over by value.
#[repr(C)]
#[derive(Clone, Copy)]
pub struct Pitches {
    pub luma: i32,
    pub u: i32,
    pub v: i32,
}

#[repr(C)]
#[derive(Clone, Copy)]
pub struct SuperFrame {
    pub frame: Sides,
    pub shift: Sides,
    pub pel: i32,
    pub level: i32,
    pub pitch: Pitches,
    pub separate: bool,
    pub source_pitch: Pitches,
}

// ---- how large a plane is
// Divided and not shifted: 10 comes to 4, where a shift would leave 5.
fn size_after(turns: usize, size: i32) -> i32
    ensures { result ≡ size_after turns size }
{
    let mut s = size;
    for _ in 0..turns {
        s = 2 * (s / 4);
    }
    s
}

fn turns_of(level: i32) -> usize
    ensures { result ≡ turns_of level }
{
    if level < 0 {
        return 0;
    }
    level as usize
}

pub fn plane_size(size: i32, level: i32) -> i32
    ensures { result ≡ plane_size size level }
{
    size_after(turns_of(level), size)
}

// ---- where it starts
// In front of level 1: the frame itself with its subplanes, or nothing where the source lies apart.
fn finest_rows(frame: SuperFrame, shift: i32) -> usize
    requires { Rowed frame }
    ensures value { result ≡ finest_rows frame shift }
    ensures upper_bound { result ≤ 262144 }
{
    let pel = whole::size(frame.pel) as usize;
    let rows = pel * pel * whole::size(limits::shifted(frame.frame.y, shift)) as usize;
    if frame.separate { 0 } else { rows }
}

fn level_rows(height: i32, shift: i32, lv: usize) -> usize
    ensures value { result ≡ level_rows height shift lv }
    ensures upper_bound { result ≤ 2147483648 }
{
    whole::size(limits::shifted(size_after(lv, height), shift)) as usize
}

// Levels 1 to n, one below the other.
fn reduced_rows(height: i32, shift: i32, n: usize) -> usize
    requires { n ≤ 15 }
    ensures value { result ≡ reduced_rows height shift n }
    ensures upper_bound { result ≤ 32212254720 }
{
    let mut rows = 0;
    // Stays by number: the level is what its rows are worked out from.
    for above in 0..n {
        rows += level_rows(height, shift, above + 1);
    }
    rows
}

pub fn level_offset(frame: SuperFrame, pitch: i32, shift: i32) -> usize
    requires rowed { Rowed frame }
    requires within { Within 0 65536 pitch }
    ensures { result ≡ level_offset frame frame.level pitch shift }
{
    let n = turns_of(frame.level);
    if n == 0 {
        return 0;
    }
    let rows = finest_rows(frame, shift) + reduced_rows(frame.frame.y, shift, n - 1);
    rows * whole::size(pitch) as usize
}

// ---- the three planes
// The finest level of a frame whose source lies apart is the source itself.
pub fn from_source(frame: SuperFrame) -> bool
    ensures { result ≡ from_source frame }
{
    frame.separate & (frame.level == 0)
}

fn pel_of(frame: SuperFrame) -> i32
    ensures { result ≡ level_pel frame }
{
    if frame.level == 0 { frame.pel } else { 1 }
}

fn cut_at(frame: SuperFrame, shift: Sides, base: usize, pitch: i32) -> Place
    ensures { result ≡ cut_at frame shift base pitch }
{
    Place {
        base,
        pitch,
        width: limits::shifted(plane_size(frame.frame.x, frame.level), shift.x),
        height: limits::shifted(plane_size(frame.frame.y, frame.level), shift.y),
        pel: pel_of(frame),
    }
}

fn place_of(frame: SuperFrame, shift: Sides, pitch: i32, source_pitch: i32) -> Place
    requires rowed { Rowed frame }
    requires within { Within 0 65536 pitch }
    ensures { result ≡ place_of frame shift pitch source_pitch }
{
    if from_source(frame) {
        return cut_at(frame, shift, 0, source_pitch);
    }
    let base = level_offset(frame, pitch, shift.y);
    cut_at(frame, shift, base, pitch)
}

pub fn planes_of(frame: SuperFrame) -> Planes
    requires { Cuttable frame }
    ensures { result ≡ planes_of frame }
{
    let Pitches { luma, u, v } = frame.pitch;
    let source = frame.source_pitch;
    Planes {
        luma: place_of(frame, Sides { x: 0, y: 0 }, luma, source.luma),
        u: place_of(frame, frame.shift, u, source.u),
        v: place_of(frame, frame.shift, v, source.v),
    }
}
