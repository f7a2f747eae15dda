// SAD and SATD of two blocks of bytes, and the cost that is one of the two.
#![tactic(auto)]

ghost use Rattle.std.specs.Prelude.{◌≡◌, ℕ, ◌+◌, ◌*◌, ◌≤◌, ◌<◌, ℤ, pos, ◌+ℤ◌, ◌-ℤ◌, nat_abs, length, drop, slice_range};
ghost use Rattle.whole.specs.Interval.{Within, within_add, within_sub, within_more};
ghost use Rattle.distance.specs.Distance.{Given, block_of, sad, satd, tile_sum, cost_of};
ghost use Rattle.distance.specs.Hadamard.{plain};
ghost use Rattle.distance.specs.Fours.{Each, each_by, butterflies};
ghost use Rattle.distance.specs.Parts.{gaps, Small, SmallRows, rows_turned, row_plain, entry, row_less, tile_less, tiles_less, Stepped, tile_in};
ghost use Rattle.distance.specs.Steps.{column_step, tile_of, steps_of};

// The rows of a block: the bytes from its first sample on, and how far apart the rows start.
#[derive(Clone, Copy)]
pub struct Rows<'a> {
    pub bytes: &'a [u8],
    pub pitch: usize,
}

impl<'a> Rows<'a> {
    // The first w samples of row y.
    fn row(self, y: usize, w: usize) -> &'a [u8]
        requires { y * self.pitch + w ≤ length self.bytes.now }
        ensures { result.now ≡ slice_range self.entry.bytes.now (y * self.entry.pitch) (y * self.entry.pitch + w) }
    {
        let start = y * self.pitch;
        &self.bytes[start..start + w]
    }

    // The rows from row y on.
    fn from(self, y: usize) -> Rows<'a>
        requires { y * self.pitch ≤ length self.bytes.now }
        ensures bytes { result.bytes.now ≡ drop (y * self.entry.pitch) self.entry.bytes.now }
        ensures pitch { result.pitch ≡ self.entry.pitch }
    {
        Rows {
            bytes: &self.bytes[y * self.pitch..],
            pitch: self.pitch,
        }
    }
}

// ---- SAD
// Two rows of one length.
fn row_gaps(a: &[u8], b: &[u8]) -> u32
    requires { (length a.now ≤ 16) × (length b.now ≡ length a.now) }
    ensures value { result ≡ gaps (length a.now) a.now b.now }
    ensures most { result ≤ 4080 }
{
    a.iter()
        .zip(b)
        .map(|(x, y)| u32::from(x.abs_diff(*y)))
        .sum()
}

fn sad_of(w: usize, h: usize, a: Rows, b: Rows) -> u32
    requires { Given w h a.bytes.now a.pitch b.bytes.now b.pitch }
    ensures { result ≡ sad w h (block_of a.entry.bytes.now a.entry.pitch) (block_of b.entry.bytes.now b.entry.pitch) }
{
    let mut total: u32 = 0;
    for y in 0..h {
        total += row_gaps(a.row(y, w), b.row(y, w));
    }
    total
}

// A call with literal sides gets a copy of its own, with the loops laid out.
fn sad_by_size(w: usize, h: usize, a: Rows, b: Rows) -> u32
    requires { Given w h a.bytes.now a.pitch b.bytes.now b.pitch }
    ensures { result ≡ sad w h (block_of a.entry.bytes.now a.entry.pitch) (block_of b.entry.bytes.now b.entry.pitch) }
{
    match (w, h) {
        (16, 16) => sad_of(16, 16, a, b),
        (16, 8) => sad_of(16, 8, a, b),
        (8, 8) => sad_of(8, 8, a, b),
        (8, 4) => sad_of(8, 4, a, b),
        (4, 4) => sad_of(4, 4, a, b),
        _ => sad_of(w, h, a, b),
    }
}

// ---- Hadamard values
// Four numbers, or four rows of them.
#[derive(Clone, Copy)]
pub struct Four<T> {
    pub a: T,
    pub b: T,
    pub c: T,
    pub d: T,
}

// Four numbers of a tile's row, and four rows. Every Hadamard value of bytes fits an i16, and eight
// of these go into one register.
pub type Quad = Four<i16>;

pub type Tile = Four<Quad>;

// What butterflies add and subtract: numbers, and rows of them, number by number.
trait Summand: Copy {
    // Each number lies from -n to n.
    ghost Small: { ℕ → Self → Type 0 };

    ghost plus: { Self → Self → Self };

    ghost minus: { Self → Self → Self };

    fn plus(self, other: Self) -> Self
        requires { Small 2040 self × Small 2040 other }
        ensures { result ≡ plus self other };

    fn minus(self, other: Self) -> Self
        requires { Small 2040 self × Small 2040 other }
        ensures { result ≡ minus self other };

    ghost small_plus: { (p q : Self) → Small 1020 p → Small 1020 q → Small 2040 (plus p q) };

    ghost small_minus: { (p q : Self) → Small 1020 p → Small 1020 q → Small 2040 (minus p q) };

    ghost smaller: { (p : Self) → Small 1020 p → Small 2040 p };
}

impl Summand for i16 {
    ghost Small = { λ n z. Within n n z };

    ghost plus = { λ p q. p +ℤ q };

    ghost minus = { λ p q. p -ℤ q };

    fn plus(self, other: i16) -> i16 {
        self + other
    }

    fn minus(self, other: i16) -> i16 {
        self - other
    }

    ghost small_plus = { λ p q s t. within_add s t };

    ghost small_minus = { λ p q s t. within_sub s t };

    ghost smaller = { λ p s. within_more s tt tt };
}

impl<T: Summand> Summand for Four<T> {
    ghost Small = { λ n f. Each (T.Small n) f };

    ghost plus = { each_by T.plus };

    ghost minus = { each_by T.minus };

    fn plus(self, other: Four<T>) -> Four<T> {
        Four {
            a: self.a.plus(other.a),
            b: self.b.plus(other.b),
            c: self.c.plus(other.c),
            d: self.d.plus(other.d),
        }
    }

    fn minus(self, other: Four<T>) -> Four<T> {
        Four {
            a: self.a.minus(other.a),
            b: self.b.minus(other.b),
            c: self.c.minus(other.c),
            d: self.d.minus(other.d),
        }
    }

    ghost small_plus = { λ p q s t. record { at_a = T.small_plus p.a q.a s.at_a t.at_a; at_b = T.small_plus p.b q.b s.at_b t.at_b; at_c = T.small_plus p.c q.c s.at_c t.at_c; at_d = T.small_plus p.d q.d s.at_d t.at_d } };

    ghost small_minus = { λ p q s t. record { at_a = T.small_minus p.a q.a s.at_a t.at_a; at_b = T.small_minus p.b q.b s.at_b t.at_b; at_c = T.small_minus p.c q.c s.at_c t.at_c; at_d = T.small_minus p.d q.d s.at_d t.at_d } };

    ghost smaller = { λ p s. record { at_a = T.smaller p.a s.at_a; at_b = T.smaller p.b s.at_b; at_c = T.smaller p.c s.at_c; at_d = T.smaller p.d s.at_d } };
}

impl<T: Summand> Four<T> {
    // The four values, by butterflies.
    fn turned(self) -> Four<T>
        requires { Each (T.Small 1020) self }
        ensures { result ≡ butterflies T.plus T.minus self }
    {
        let s0 = self.a.plus(self.b);
        let s1 = self.c.plus(self.d);
        let d0 = self.a.minus(self.b);
        let d1 = self.c.minus(self.d);
        Four {
            a: s0.plus(s1),
            b: s0.minus(s1),
            c: d0.plus(d1),
            d: d0.minus(d1),
        }
    }
}

impl Quad {
    // The four absolute values together.
    fn row_weight(self) -> u16
        requires { Small 4080 self }
        ensures { result ≡ row_plain self }
    {
        self.a.unsigned_abs()
            + self.b.unsigned_abs()
            + self.c.unsigned_abs()
            + self.d.unsigned_abs()
    }
}

// A tile's steps: columns first, then rows. What is left are the Hadamard values.
#[derive(Clone, Copy)]
pub struct Steps {
    pub columns: Tile,
    pub values: Tile,
    pub total: u16,
}

impl Tile {
    // The tile after its column step, rows as rows: what the bench dumps. The butterflies add whole rows,
    // so that no column has to be picked out.
    fn column_step(self) -> Tile
        requires { SmallRows 255 self }
        ensures { result ≡ tile_of (column_step (entry self)) }
    {
        self.turned()
    }

    fn turn_rows(self) -> Tile
        requires { SmallRows 1020 self }
        ensures { result ≡ rows_turned self }
    {
        Tile {
            a: self.a.turned(),
            b: self.b.turned(),
            c: self.c.turned(),
            d: self.d.turned(),
        }
    }

    // The sixteen absolute values together.
    fn weight(self) -> u16
        requires { SmallRows 4080 self }
        ensures { result ≡ plain (entry self) }
    {
        self.a.row_weight() + self.b.row_weight() + self.c.row_weight() + self.d.row_weight()
    }

    pub fn steps(self) -> Steps
        requires { SmallRows 255 self }
        ensures { result ≡ steps_of (entry self) }
    {
        let columns = self.column_step();
        let values = columns.turn_rows();
        Steps {
            columns,
            values,
            total: values.weight(),
        }
    }
}

fn less(a: u8, b: u8) -> i16
    ensures value { result ≡ pos a -ℤ pos b }
    ensures small { Within 255 255 result }
{
    i16::from(a) - i16::from(b)
}

// The differences of the first four samples of row y.
fn row_less(a: Rows, b: Rows, y: usize) -> Quad
    requires { (y * a.pitch + 4 ≤ length a.bytes.now) × (y * b.pitch + 4 ≤ length b.bytes.now) }
    ensures value { result ≡ row_less a.entry.bytes.now (y * a.entry.pitch) b.entry.bytes.now (y * b.entry.pitch) }
    ensures small { Small 255 result }
{
    let p = a.row(y, 4);
    let q = b.row(y, 4);
    Quad {
        a: less(p[0], q[0]),
        b: less(p[1], q[1]),
        c: less(p[2], q[2]),
        d: less(p[3], q[3]),
    }
}

// The first tile, done as a tile.
fn tile_at(a: Rows, b: Rows) -> u32
    requires { (3 * a.pitch + 4 ≤ length a.bytes.now) × (3 * b.pitch + 4 ≤ length b.bytes.now) }
    ensures value { result ≡ tile_sum (tile_less a.entry.bytes.now 0 a.entry.pitch b.entry.bytes.now 0 b.entry.pitch) }
    ensures most { result < 65536 }
{
    let tile = Tile {
        a: row_less(a, b, 0),
        b: row_less(a, b, 1),
        c: row_less(a, b, 2),
        d: row_less(a, b, 3),
    };
    u32::from(tile.steps().total)
}

// The column step of n columns side by side, rows as rows. In each row a turn writes next to the turn
// before it, so that the compiler can do several at a time.
fn column_steps(a: Rows, b: Rows, n: usize) -> Four<[i16; 16]>
    requires n_bound { n ≤ 16 }
    requires held { (3 * a.pitch + n ≤ length a.bytes.now) × (3 * b.pitch + n ≤ length b.bytes.now) }
    ensures { Stepped n a.entry.bytes.now 0 a.entry.pitch b.entry.bytes.now 0 b.entry.pitch result }
{
    let a0 = a.row(0, n);
    let a1 = a.row(1, n);
    let a2 = a.row(2, n);
    let a3 = a.row(3, n);
    let b0 = b.row(0, n);
    let b1 = b.row(1, n);
    let b2 = b.row(2, n);
    let b3 = b.row(3, n);
    let mut out = Four {
        a: [0; 16],
        b: [0; 16],
        c: [0; 16],
        d: [0; 16],
    };
    // Stays by index: x is a column, read in eight rows and written in four.
    for x in 0..n {
        let column = Quad {
            a: less(a0[x], b0[x]),
            b: less(a1[x], b1[x]),
            c: less(a2[x], b2[x]),
            d: less(a3[x], b3[x]),
        };
        let turned = column.turned();
        out.a[x] = turned.a;
        out.b[x] = turned.b;
        out.c[x] = turned.c;
        out.d[x] = turned.d;
    }
    out
}

// The tile after its column step that starts at column x.
fn tile_in(columns: &Four<[i16; 16]>, x: usize) -> Tile
    requires { x + 4 ≤ 16 }
    ensures { result ≡ tile_in columns.now x }
{
    // Stays written out: with a function for one row the compiler lays the tiles' loop out differently,
    // and SATD of 16x16 takes 1.08 times as long.
    Tile {
        a: Quad {
            a: columns.a[x],
            b: columns.a[x + 1],
            c: columns.a[x + 2],
            d: columns.a[x + 3],
        },
        b: Quad {
            a: columns.b[x],
            b: columns.b[x + 1],
            c: columns.b[x + 2],
            d: columns.b[x + 3],
        },
        c: Quad {
            a: columns.c[x],
            b: columns.c[x + 1],
            c: columns.c[x + 2],
            d: columns.c[x + 3],
        },
        d: Quad {
            a: columns.d[x],
            b: columns.d[x + 1],
            c: columns.d[x + 2],
            d: columns.d[x + 3],
        },
    }
}

// A row of m tiles. One alone is done as a tile; of more the column step is done side by side.
fn tiles_at(a: Rows, b: Rows, m: usize) -> u32
    requires m_bound { m ≤ 4 }
    requires held { (3 * a.pitch + 4 * m ≤ length a.bytes.now) × (3 * b.pitch + 4 * m ≤ length b.bytes.now) }
    ensures value { result ≡ tiles_less m a.entry.bytes.now 0 a.entry.pitch b.entry.bytes.now 0 b.entry.pitch }
    ensures most { result < 262144 }
{
    if m == 1 {
        return tile_at(a, b);
    }
    let columns = column_steps(a, b, 4 * m);
    let mut total: u32 = 0;
    for j in 0..m {
        let stepped = tile_in(&columns, 4 * j);
        total += u32::from(stepped.turn_rows().weight());
    }
    total
}

// Halved once, at the end.
fn satd_of(w: usize, h: usize, a: Rows, b: Rows) -> u32
    requires { Given w h a.bytes.now a.pitch b.bytes.now b.pitch }
    ensures { result ≡ satd w h (block_of a.entry.bytes.now a.entry.pitch) (block_of b.entry.bytes.now b.entry.pitch) }
{
    let mut total: u32 = 0;
    for i in 0..h / 4 {
        total += tiles_at(a.from(4 * i), b.from(4 * i), w / 4);
    }
    total / 2
}

// The measure asked for: SATD, or else SAD.
// Stays a bool: it is the request's flag, as C sets it, and what `cost_of` takes.
pub fn cost(measure: bool, w: usize, h: usize, a: Rows, b: Rows) -> u32
    requires { Given w h a.bytes.now a.pitch b.bytes.now b.pitch }
    ensures { result ≡ cost_of measure w h (block_of a.entry.bytes.now a.entry.pitch) (block_of b.entry.bytes.now b.entry.pitch) }
{
    if measure {
        satd_of(w, h, a, b)
    } else {
        sad_by_size(w, h, a, b)
    }
}
