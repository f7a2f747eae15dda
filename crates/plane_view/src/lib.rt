// A plane as one thing: its bytes, and where they stand (base, pitch, sides and pel), in a struct that
// refers to the bytes. Each function is thin, and leaves its work to one of plane's, over plain values.
#![tactic(auto)]

ghost use Rattle.std.specs.Prelude.{◌≡◌, length};
ghost use Rattle.distance.specs.Distance.{block_of};
ghost use Rattle.plane.specs.Places.{keeps_length, pel1_of, subpel_of, Located};
ghost use Rattle.plane_view.specs.View.{place_read, place_cost, Costed};

use distance::Rows;
use plane::{Packed, Place, Read};

#[derive(Clone, Copy)]
pub struct PlaneView<'a> {
    pub bytes: &'a [u8],
    pub place: Place,
}

impl<'a> PlaneView<'a> {
    pub fn new(bytes: &'a [u8], place: Place) -> PlaneView<'a>
        ensures { (result.bytes ≡ bytes.entry) × (result.place ≡ place) }
    {
        PlaneView { bytes, place }
    }

    pub fn keeps_length(self) -> bool
        ensures { result ≡ keeps_length self.entry.place (length self.entry.bytes.now) }
    {
        self.place.keeps_length(self.bytes.len())
    }

    pub fn pel1(self, x: i64, y: i64) -> i64
        requires { Located self.place x y }
        ensures { result ≡ pel1_of self.entry.place x y }
    {
        self.place.pel1(x, y)
    }

    pub fn subpel(self, x: i64, y: i64) -> i64
        requires { Located self.place x y }
        ensures { result ≡ subpel_of self.entry.place x y }
    {
        self.place.subpel(x, y)
    }

    pub fn sample(self, x: i64, y: i64) -> Read
        requires { Located self.place x y }
        ensures { result ≡ place_read self.entry.bytes.now self.entry.place x y }
    {
        plane::sample(self.bytes, self.place.subpel(x, y))
    }

    // The rows compared step by the plane's own pitch.
    pub fn cost(self, measure: bool, block: Packed, at: i64) -> u32
        requires { Costed self.place block.w block.h block.samples.now at }
        ensures { result ≡ place_cost measure block.entry.w block.entry.h (block_of block.entry.samples.now block.entry.w) self.entry.bytes.now self.entry.place at }
    {
        let rows = Rows {
            bytes: self.bytes,
            pitch: self.place.pitch as usize,
        };
        plane::cost_at(measure, block, rows, at)
    }
}
