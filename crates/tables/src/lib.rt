// Where each slot of a block is read in a plane, and what it costs from there: the predictor's slot, and
// then the window's, row by row. A slot's offset is a number, so that one plane's offsets serve another.
#![tactic(auto)]

ghost use Rattle.std.specs.Prelude.{◌≡◌, ◌≤◌, ◌<◌, pos};
ghost use Rattle.whole.specs.Interval.{Within};
ghost use Rattle.distance.specs.Distance.{block_of};
ghost use Rattle.plane.specs.Places.{Placed, Near};
ghost use Rattle.plane_view.specs.View.{place_cost, PackedBlock};
ghost use Rattle.choosing.specs.Bounds.{Served};
ghost use Rattle.tables.specs.Tables.{vector_offset, candidate_of, table_of, slots_used, costs_upto, joined};
ghost use Rattle.tables.specs.Bounds.{Reached, Nearby, Most};

use choosing::Choice;
use plane::{Packed, Place};
use plane_view::PlaneView;

// Where a plane's candidates stand: its place, the position of the zero vector, and the shift of a
// vector's components.
#[derive(Clone, Copy)]
pub struct Reference {
    pub place: Place,
    pub x: i32,
    pub y: i32,
    pub shift: i32,
}

impl Reference {
    pub fn vector_offset(self, samples: &[u8], vx: i32, vy: i32) -> i64
        requires reached { Reached self }
        requires within { Within 32768 65536 vx × Within 32768 65536 vy }
        ensures value { result ≡ vector_offset self vx vy }
        ensures near { Near result }
    {
        let x = self.x as i64 + limits::shifted(vx, self.shift) as i64;
        let y = self.y as i64 + limits::shifted(vy, self.shift) as i64;
        PlaneView::new(samples, self.place).subpel(x, y)
    }

    // The offset of the window's candidate in column i of row j.
    fn window_offset(self, samples: &[u8], choice: Choice, j: usize, i: usize) -> i64
        requires reached { Reached self }
        requires served { Served choice × ((j < 7) × (i < 7)) }
        ensures value { result ≡ candidate_of choice (vector_offset self) j i }
        ensures near { Near result }
    {
        let vx = choice.x_at(i);
        let vy = choice.y_at(j);
        self.vector_offset(samples, vx, vy)
    }

    // The offsets of a block's slots, worked out by the view of one plane.
    pub fn offsets(self, samples: &[u8], choice: Choice) -> [i64; 50]
        requires { Reached self × Served choice }
        ensures value { result ≡ table_of (pos 0) choice (vector_offset self) }
        ensures nearby { Nearby result }
    {
        let columns = choice.column_count();
        let rows = choice.row_count();
        let mut out = [0i64; 50];
        out[0] = self.vector_offset(samples, choice.x, choice.y);
        // Stays by index: j and i are a candidate's row and column, and say which slot is its own.
        for j in 0..rows {
            for i in 0..columns {
                out[1 + j * columns + i] = self.window_offset(samples, choice, j, i);
            }
        }
        out
    }
}

// How many slots of a table a block uses.
fn slots_used(choice: Choice) -> usize
    requires { Served choice }
    ensures { result ≡ slots_used choice }
{
    1 + choice.row_count() * choice.column_count()
}

// What each slot costs in a plane, from its offset on.
pub fn costs(
    measure: bool,
    block: Packed,
    view: PlaneView,
    offsets: &[i64; 50],
    choice: Choice,
) -> [u32; 50]
    requires packed_block { PackedBlock block.w block.h block.samples.now × (Placed view.place × Nearby offsets.now) }
    requires served { Served choice }
    ensures { result ≡ costs_upto (place_cost measure block.entry.w block.entry.h (block_of block.entry.samples.now block.entry.w) view.entry.bytes.now view.entry.place) offsets.now (slots_used choice) }
{
    let used = slots_used(choice);
    let mut out = [0u32; 50];
    // Stays by index: n is the slot, the same in both tables, and those behind the last one used keep 0.
    for n in 0..used {
        out[n] = view.cost(measure, block, offsets[n]);
    }
    out
}

// Two planes' tables together, and scaled.
pub fn join(u: &[u32; 50], v: &[u32; 50], scale: u32) -> [u32; 50]
    requires { (Most 130560 u.now × Most 130560 v.now) × (scale ≤ 4) }
    ensures { result ≡ joined scale u.now v.now }
{
    let mut out = [0u32; 50];
    // Stays by index: n is the slot, the same in the three tables.
    for n in 0..50 {
        out[n] = (u[n] + v[n]) * scale;
    }
    out
}
