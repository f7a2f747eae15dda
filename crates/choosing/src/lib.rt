// One block's choice from its two cost tables: which vector of the window costs least, walked row by row.
#![tactic(auto)]

ghost use Rattle.std.specs.Prelude.{◌≡◌, true, ◌+◌, ◌<◌, pos, ◌+ℤ◌};
ghost use Rattle.whole.specs.Interval.{Within};
ghost use Rattle.choosing.specs.Choosing.{count_of, columns_of, rows_of, distance_cost, with_penalty, luma_column, chosen, tripled_of, selected};
ghost use Rattle.choosing.specs.Bounds.{Small, Ranged, Served};

// What a block is chosen by: its predictor, its window, and the three numbers that costs are made with.
#[derive(Clone, Copy)]
pub struct Choice {
    pub x: i32,
    pub y: i32,
    pub least_x: i32,
    pub greatest_x: i32,
    pub least_y: i32,
    pub greatest_y: i32,
    pub lambda: i32,
    pub pnew: i32,
    pub pel: i32,
}

#[derive(Clone, Copy)]
pub struct Chosen {
    pub x: i32,
    pub y: i32,
    pub sad: i32,
}

// The numbers from least to greatest, both included: a window along one axis.
#[derive(Clone, Copy)]
pub struct Span {
    pub least: i32,
    pub greatest: i32,
}

impl Span {
    pub fn count(self) -> usize
        requires { Within 32768 32767 self.least × Within 32768 32767 self.greatest }
        ensures { result ≡ count_of self.least self.greatest }
    {
        if self.least <= self.greatest {
            (self.greatest - self.least + 1) as usize
        } else {
            0
        }
    }

    // The nth from the least on.
    fn at(self, n: usize) -> i32
        requires { Within 32768 32767 self.least × (n < 65536) }
        ensures { result ≡ self.least +ℤ pos n }
    {
        self.least + n as i32
    }
}

impl Choice {
    fn across(self) -> Span
        ensures { (result.least ≡ self.least_x) × (result.greatest ≡ self.greatest_x) }
    {
        Span {
            least: self.least_x,
            greatest: self.greatest_x,
        }
    }

    fn down(self) -> Span
        ensures { (result.least ≡ self.least_y) × (result.greatest ≡ self.greatest_y) }
    {
        Span {
            least: self.least_y,
            greatest: self.greatest_y,
        }
    }

    pub fn column_count(self) -> usize
        requires { Ranged self }
        ensures { result ≡ columns_of self }
    {
        self.across().count()
    }

    pub fn row_count(self) -> usize
        requires { Ranged self }
        ensures { result ≡ rows_of self }
    {
        self.down().count()
    }

    pub fn x_at(self, i: usize) -> i32
        requires { Ranged self × (i < 65536) }
        ensures { result ≡ self.least_x +ℤ pos i }
    {
        self.across().at(i)
    }

    pub fn y_at(self, j: usize) -> i32
        requires { Ranged self × (j < 65536) }
        ensures { result ≡ self.least_y +ℤ pos j }
    {
        self.down().at(j)
    }

    fn distance_cost(self, vx: i32, vy: i32) -> i32
        requires ranged { Ranged self }
        requires within { Within 32768 98302 vx × Within 32768 98302 vy }
        ensures { result ≡ distance_cost self vx vy }
    {
        let dx = self.x - vx;
        let dy = self.y - vy;
        let squared = whole::wrapping_add(whole::wrapping_mul(dx, dx), whole::wrapping_mul(dy, dy));
        whole::wrapping_mul(self.lambda, squared) >> 8
    }

    // A cost, with the penalty of one plane's SAD added.
    fn with_penalty(self, cost: i32, sad: u32) -> i32
        requires { sad < 1048576 }
        ensures { result ≡ with_penalty self cost sad }
    {
        let plain = sad as i32;
        let part = whole::wrapping_mul(self.pnew, plain) >> 8;
        whole::wrapping_add(cost, whole::wrapping_add(plain, part))
    }

    // The column whose luma the candidate in column i takes.
    fn luma_column(self, column: usize, i: usize) -> usize
        ensures { result ≡ luma_column self column i }
    {
        if self.pel == 1 { column } else { i }
    }

    // A bad block's choice. A candidate leaves at the first test that it fails, so that dear ones cost little.
    // Stays as labelled loops by number: i and j are the candidate's column and row.
    fn choose(self, luma: &[u32; 50], chroma: &[u32; 50]) -> Chosen
        requires served { Served self }
        requires small { Small luma.now × Small chroma.now }
        ensures { result ≡ chosen self luma.now chroma.now }
    {
        let columns = self.column_count();
        let rows = self.row_count();
        let mut x = self.x;
        let mut y = self.y;
        let mut sad = plain_sad(luma[0], chroma[0]);
        let mut least = sad;
        'rows: for j in 0..rows {
            let vy = self.y_at(j);
            let row = 1 + j * columns;
            let mut column: usize = 0;
            'columns: for i in 0..columns {
                let vx = self.x_at(i);
                let after_distance = self.distance_cost(vx, vy);
                if after_distance >= least {
                    continue 'columns;
                }
                let at = self.luma_column(column, i);
                column += 1;
                let l = luma[row + at];
                let after_luma = self.with_penalty(after_distance, l);
                if after_luma >= least {
                    continue 'columns;
                }
                let c = chroma[row + i];
                let after_chroma = self.with_penalty(after_luma, c);
                if after_chroma >= least {
                    continue 'columns;
                }
                x = vx;
                y = vy;
                sad = plain_sad(l, c);
                least = after_chroma;
            }
        }
        Chosen { x, y, sad }
    }

    // One block's answer: a bad one's choice, another's predictor with its own SAD.
    pub fn select(
        self,
        bad: bool,
        negative: bool,
        sad: i32,
        luma: &[u32; 50],
        chroma: &[u32; 50],
    ) -> Chosen
        requires served { bad ≡ true → Served self }
        requires small { Small luma.now × Small chroma.now }
        ensures { result ≡ selected self bad negative sad luma.now chroma.now }
    {
        if bad {
            let best = self.choose(luma, chroma);
            Chosen {
                sad: tripled(negative, best.sad),
                ..best
            }
        } else {
            Chosen {
                x: self.x,
                y: self.y,
                sad: tripled(negative, sad),
            }
        }
    }
}

fn plain_sad(luma: u32, chroma: u32) -> i32
    requires { (luma < 1048576) × (chroma < 1048576) }
    ensures { result ≡ pos (luma + chroma) }
{
    (luma + chroma) as i32
}

fn tripled(negative: bool, sad: i32) -> i32
    ensures { result ≡ tripled_of negative sad }
{
    if negative {
        whole::wrapping_mul(sad, 3)
    } else {
        sad
    }
}
