// A frame's three planes, their samples, and what refusals 2 and 3 ask of them: planning asks it of the source, evaluating of the source and of the reference.
#![tactic(auto)]

ghost use Rattle.std.specs.Prelude.{◌≡◌, length};
ghost use Rattle.planes.specs.Planes.{chroma_holds, planes_hold, holds3};

use plane::Place;
use plane_view::PlaneView;

// One number along each axis. Laid out as C lays it out: a host hands it over by value.
#[repr(C)]
#[derive(Clone, Copy)]
pub struct Sides {
    pub x: i32,
    pub y: i32,
}

#[repr(C)]
#[derive(Clone, Copy)]
pub struct Planes {
    pub luma: Place,
    pub u: Place,
    pub v: Place,
}

// The bytes of a frame's three planes, as they are lent.
#[derive(Clone, Copy)]
pub struct Samples<'a> {
    pub luma: &'a [u8],
    pub u: &'a [u8],
    pub v: &'a [u8],
}

// A chroma plane's sides are luma's, shifted.
fn chroma_holds(luma: Place, shift: Sides, place: Place) -> bool
    ensures { result ≡ chroma_holds luma shift place }
{
    let w = limits::shifted(luma.width, shift.x);
    let h = limits::shifted(luma.height, shift.y);
    (place.width == w) & (place.height == h)
}

pub fn planes_hold(planes: Planes, shift: Sides) -> bool
    ensures { result ≡ planes_hold planes shift }
{
    planes.luma.within_limits()
        & planes.u.within_limits()
        & planes.v.within_limits()
        & chroma_holds(planes.luma, shift, planes.u)
        & chroma_holds(planes.luma, shift, planes.v)
}

pub fn holds_3(planes: Planes, samples: Samples) -> bool
    ensures { result ≡ holds3 planes (length samples.entry.luma.now) (length samples.entry.u.now) (length samples.entry.v.now) }
{
    PlaneView::new(samples.luma, planes.luma).keeps_length()
        & PlaneView::new(samples.u, planes.u).keeps_length()
        & PlaneView::new(samples.v, planes.v).keeps_length()
}
