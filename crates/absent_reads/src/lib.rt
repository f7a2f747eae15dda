// How many samples of a block lie outside a plane's data. What the bytes are doesn't count: black is
// there. A row is counted at once: what it shares with the data is there, and the rest of it is not.
#![tactic(auto)]

ghost use Rattle.std.specs.Prelude.{◌≡◌, true, ◌≤◌, length};
ghost use Rattle.whole.specs.Interval.{Within};
ghost use Rattle.whole.specs.Signed.{P};
ghost use Rattle.plane.specs.Places.{Placed, Near};
ghost use Rattle.absent_reads.specs.Absent.{absent_in, place_absent};
ghost use Rattle.absent_reads.specs.Rows.{shared_by};

use distance::Rows;
use plane_view::PlaneView;

// A place, or the front of the data where it lies before them.
fn from_front(at: i64) -> usize
    ensures { result ≡ P at }
{
    at.max(0) as usize
}

// How many of the w places from one on are in the data.
fn shared(samples: &[u8], at: i64, w: usize) -> usize
    requires { Within 562949953421312 562949953421312 at × (w ≤ 16) }
    ensures { result ≡ shared_by (length samples.now) at w }
{
    let end = from_front(at + w as i64).min(samples.len());
    end.saturating_sub(from_front(at))
}

fn absent_in(samples: Rows, at: i64, w: usize, h: usize) -> u32
    requires near { Near at × (samples.pitch ≤ 65536) }
    requires w_bound { (w ≤ 16) × (h ≤ 16) }
    ensures { result ≡ absent_in samples.entry.bytes.now at samples.entry.pitch w h }
{
    let mut total: u32 = 0;
    // Stays by number: y is the row, which says where the row begins.
    for y in 0..h {
        total += (w - shared(samples.bytes, at + (y * samples.pitch) as i64, w)) as u32;
    }
    total
}

// Whether the block and a row more lie in the data, as most do: then there is nothing to count.
fn lies_inside(samples: Rows, at: i64, w: usize, h: usize) -> bool
    requires near { Near at × (samples.pitch ≤ 65536) }
    requires w_bound { (w ≤ 16) × (h ≤ 16) }
    ensures { result ≡ true → absent_in samples.entry.bytes.now at samples.entry.pitch w h ≡ 0 }
{
    if at < 0 {
        return false;
    }
    at as usize + (h * samples.pitch + w) <= samples.bytes.len()
}

// The rows step by the plane's own pitch, as those that are compared do.
pub fn absent(view: PlaneView, at: i64, w: usize, h: usize) -> u32
    requires placed { Placed view.place × Near at }
    requires w_bound { (w ≤ 16) × (h ≤ 16) }
    ensures { result ≡ place_absent view.entry.bytes.now view.entry.place at w h }
{
    let samples = Rows {
        bytes: view.bytes,
        pitch: view.place.pitch as usize,
    };
    if lies_inside(samples, at, w, h) {
        0
    } else {
        absent_in(samples, at, w, h)
    }
}
