// Where a plane's samples stand, what is read there, and the blocks that are gathered from there.
// A plane's bytes are a lent slice, and its place is a struct beside it.
#![tactic(auto)]

ghost use Rattle.std.specs.Prelude.{◌≡◌, true, ◌+◌, ◌*◌, ◌≤◌, ◌<◌, pos, ◌+ℤ◌, nat_abs, length};
ghost use Rattle.std.specs.Int.Signed.{shr_z};
ghost use Rattle.whole.specs.Numbers.{mod_z};
ghost use Rattle.limits.specs.Limits.{is_pel};
ghost use Rattle.distance.specs.Distance.{block_of, cost_of};
ghost use Rattle.plane.specs.Places.{limits_hold, keeps_length, pel1_of, subpel_of, Located, Near};
ghost use Rattle.plane.specs.Samples.{read_at, weight, sample_at, placed_at, placed_from, nth, source_at, gathered, average_of};
ghost use Rattle.plane.specs.Averages.{Power};

use distance::Rows;
use records::Offset;

// Laid out as C lays it out: a host hands it over by value.
#[repr(C)]
#[derive(Clone, Copy)]
pub struct Place {
    pub base: usize,
    pub pitch: i32,
    pub width: i32,
    pub height: i32,
    pub pel: i32,
}

// What was found at an offset: the byte there, or that the place is outside the data. A byte of 0 is
// black; no byte is not.
pub type Read = Option<u8>;

impl Place {
    // Refusal 2, but for the sides, which the entries ask about.
    pub fn within_limits(self) -> bool
        ensures { result ≡ limits_hold self }
    {
        limits::is_pel(self.pel) & limits::is_pitch(self.width, self.pitch)
    }

    // Refusal 3. The base may be any usize, and is compared with what the rows leave of the length: no
    // sum is formed with it.
    pub fn keeps_length(self, length: usize) -> bool
        ensures { result ≡ keeps_length self length }
    {
        if !limits::is_length(length) {
            return false;
        }
        let Place {
            base,
            pitch,
            width,
            height,
            ..
        } = self;
        let room = length as i64 - ((height as i64 - 1) * (pitch as i64) + width as i64);
        if room < 0 {
            return false;
        }
        base <= room as usize
    }

    // Places are 64 bits wide: a position of 32 bits and a vector beside it may leave 32.
    pub fn pel1(self, x: i64, y: i64) -> i64
        requires { Located self x y }
        ensures { result ≡ pel1_of self x y }
    {
        self.base as i64 + y * self.pitch as i64 + x
    }

    pub fn subpel(self, x: i64, y: i64) -> i64
        requires { Located self x y }
        ensures { result ≡ subpel_of self x y }
    {
        let Place {
            pitch,
            height,
            pel,
            ..
        } = self;
        let subplane = remainder(x, pel) + pel as i64 * remainder(y, pel);
        self.pel1(floored(x, pel), floored(y, pel)) + subplane * pitch as i64 * height as i64
    }
}

// x divided by pel, rounding down.
fn floored(x: i64, pel: i32) -> i64
    requires { is_pel pel ≡ true }
    ensures { result ≡ shr_z x (nat_abs pel) }
{
    match pel {
        1 => x,
        2 => x >> 1,
        _ => x >> 2,
    }
}

// What that leaves, from 0.
fn remainder(x: i64, pel: i32) -> i64
    requires { is_pel pel ≡ true }
    ensures { result ≡ pos (mod_z x (nat_abs pel)) }
{
    x & (pel as i64 - 1)
}

// The byte at an offset, or that there is none.
pub fn sample(samples: &[u8], at: i64) -> Read
    ensures { result ≡ read_at samples.now at }
{
    if at < 0 {
        return None;
    }
    let i = at as usize;
    // Stays a test: with `get` there is no byte one past the end to slip to, as read_past_the_end does.
    if i < samples.len() {
        Some(samples[i])
    } else {
        None
    }
}

// What a read counts in a cost. Only here does a read that found nothing become 0.
#[tactic(auto, unfolding(crate::specs::Samples::weight))]
pub fn weight(read: Read) -> u8
    ensures { result ≡ weight read }
{
    read.unwrap_or(0)
}

// What counts n bytes further on.
fn sample_on(samples: &[u8], at: i64, n: usize) -> u8
    requires { Near at × (n < 1099511627776) }
    ensures { result ≡ sample_at samples.now (at +ℤ pos n) }
{
    weight(sample(samples, at + n as i64))
}

// The w x h samples from an offset on, one row behind the other.
pub fn gather(samples: Rows, at: i64, w: usize, h: usize) -> [u8; 256]
    requires near { Near at × (samples.pitch ≤ 65536) }
    requires w_bound { (w ≤ 16) × (h ≤ 16) }
    ensures { result ≡ gathered (h * w) (nth w (placed_at samples.entry.bytes.now at samples.entry.pitch)) }
{
    let mut out = [0u8; 256];
    // Stays by index: y and x are the row and the column of a sample.
    for y in 0..h {
        for x in 0..w {
            out[y * w + x] = sample_on(samples.bytes, at, y * samples.pitch + x);
        }
    }
    out
}

// The same from an origin. An absent one has no samples to read.
pub fn gather_from(samples: Rows, origin: Offset, w: usize, h: usize) -> [u8; 256]
    requires { (samples.pitch ≤ 65536) × ((w ≤ 16) × (h ≤ 16)) }
    ensures { result ≡ gathered (h * w) (nth w (placed_from samples.entry.bytes.now origin samples.entry.pitch)) }
{
    let Some(at) = origin else {
        return [0u8; 256];
    };
    gather(samples, at as i64, w, h)
}

// Sample b from a place on, w to a row.
fn nth_at(samples: Rows, at: i32, w: usize, b: usize) -> u8
    requires { (samples.pitch ≤ 65536) × (((0 < w) × (w ≤ 16)) × (b < 256)) }
    ensures { result ≡ nth w (placed_at samples.entry.bytes.now at samples.entry.pitch) b }
{
    sample_on(samples.bytes, at as i64, b / w * samples.pitch + b % w)
}

fn nth_from(samples: Rows, origin: Offset, w: usize, b: usize) -> u8
    requires { (samples.pitch ≤ 65536) × (((0 < w) × (w ≤ 16)) × (b < 256)) }
    ensures { result ≡ nth w (placed_from samples.entry.bytes.now origin samples.entry.pitch) b }
{
    let Some(at) = origin else {
        return 0;
    };
    nth_at(samples, at, w, b)
}

// Sample b of the source: from the overlay in its quarter, else from full.
fn source(samples: Rows, full: Offset, overlay: Offset, w: usize, h: usize, b: usize) -> u8
    requires pitch_bound { (samples.pitch ≤ 65536) × (b < 256) }
    requires le_w { ((2 ≤ w) × (w ≤ 16)) × (h ≤ 16) }
    ensures { result ≡ source_at samples.entry.bytes.now samples.entry.pitch full overlay w h b }
{
    let Some(at) = overlay else {
        return nth_from(samples, full, w, b);
    };
    let half = w / 2;
    if b < half * (h / 2) {
        return nth_at(samples, at, half, b);
    }
    nth_from(samples, full, w, b)
}

// The first n samples of the source, where w and h are the sides of the full block.
pub fn source_block(
    samples: Rows,
    full: Offset,
    overlay: Offset,
    w: usize,
    h: usize,
    n: usize,
) -> [u8; 256]
    requires pitch_bound { (samples.pitch ≤ 65536) × (n ≤ 256) }
    requires le_w { ((2 ≤ w) × (w ≤ 16)) × (h ≤ 16) }
    ensures { result ≡ gathered n (source_at samples.entry.bytes.now samples.entry.pitch full overlay w h) }
{
    let mut out = [0u8; 256];
    // Stays by index: the sample's number is what is asked.
    for b in 0..n {
        out[b] = source(samples, full, overlay, w, h, b);
    }
    out
}

// A block's samples, h rows of w, one behind the other.
#[derive(Clone, Copy)]
pub struct Packed<'a> {
    pub samples: &'a [u8],
    pub w: usize,
    pub h: usize,
}

// The cost of a packed block against the reference from an offset on. Where the block's rows lie in
// the data they are compared in place, and only at an edge are they gathered.
pub fn cost_at(measure: bool, block: Packed, samples: Rows, at: i64) -> u32
    requires near { Near at × ((samples.pitch ≤ 65536) × (block.h * block.w ≤ length block.samples.now)) }
    requires w_bound { (block.w ≤ 16) × ((0 < block.h) × (block.h ≤ 16)) }
    ensures { result ≡ cost_of measure block.entry.w block.entry.h (block_of block.entry.samples.now block.entry.w) (placed_at samples.entry.bytes.now at samples.entry.pitch) }
{
    let Packed {
        samples: packed,
        w,
        h,
    } = block;
    let own = Rows {
        bytes: packed,
        pitch: w,
    };
    let Rows { bytes, pitch } = samples;
    let span = (h - 1) * pitch + w;
    if 0 <= at {
        let i = at as usize;
        if i <= bytes.len() && span <= bytes.len() - i {
            let inside = Rows {
                bytes: &bytes[i..],
                pitch,
            };
            return distance::cost(measure, w, h, own, inside);
        }
    }
    let edge = gather(samples, at, w, h);
    let gathered = Rows {
        bytes: &edge,
        pitch: w,
    };
    distance::cost(measure, w, h, own, gathered)
}

// The sum is the SAD against zeros. The area is a power of two, so that the shift by its log2 is a
// division by it.
pub fn average(samples: Rows, origin: Offset, w: usize, h: usize) -> i32
    requires pitch_bound { (samples.pitch ≤ 65536) × ((w ≤ 16) × (h ≤ 16)) }
    requires power { Power w h }
    ensures { result ≡ pos (average_of samples.entry.bytes.now samples.entry.pitch origin w h) }
{
    let Some(at) = origin else {
        return 0;
    };
    if h < 4 {
        return 0;
    }
    let block = gather(samples, at as i64, w, h);
    let gathered = Rows {
        bytes: &block,
        pitch: w,
    };
    let zeros = [0u8; 256];
    let black = Rows {
        bytes: &zeros,
        pitch: w,
    };
    let total = distance::cost(false, w, h, gathered, black);
    (total / (w * h) as u32) as i32
}
