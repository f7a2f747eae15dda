// Planning's two passes over the order: the first asks whether every record fits, the second writes.
#![tactic(auto)]

ghost use Rattle.std.specs.Prelude.{◌≡◌, ◌++◌, ◌+◌, ◌*◌, ◌≤◌, length, drop};
ghost use Rattle.limits.specs.Sizes.{words_per_record};
ghost use Rattle.passes.specs.Fold.{word_list, index_at, block_at, turn_at, all_fit, words_upto, indices_upto};
ghost use Rattle.passes.specs.Asked.{Listed, Serves, Served};

use block::{Block, Settings};
use planes::{Samples, Sides};
use records::Words;
use slots::Slots;

// What one block of the order adds, and the slots that it hands to the next.
// Stays with a flag beside the words: the second pass puts the words whether they fit or not, as its
// promise says.
#[derive(Clone, Copy)]
pub struct Turn {
    pub index: usize,
    pub fits: bool,
    pub words: Words,
    pub slots: Slots,
}

fn index_at(grid: Sides, order: &[i32], i: usize) -> usize
    requires { Listed grid order.now i }
    ensures { result ≡ index_at grid order.now i }
{
    let x = order[2 * i] as usize;
    let y = order[2 * i + 1] as usize;
    y * grid.x as usize + x
}

fn block_at(grid: Sides, order: &[i32], vectors: &[i32], i: usize) -> Block
    requires { Listed grid order.now i × (3 * index_at grid order.now i + 3 ≤ length vectors.now) }
    ensures { result ≡ block_at grid order.now vectors.now i }
{
    let at = 3 * index_at(grid, order, i);
    Block {
        x: order[2 * i],
        y: order[2 * i + 1],
        px: vectors[at],
        py: vectors[at + 1],
        sad: vectors[at + 2],
    }
}

fn turn_at(
    s: Settings,
    order: &[i32],
    vectors: &[i32],
    samples: Samples,
    i: usize,
    slots: Slots,
) -> Turn
    requires { Serves s order.now vectors.now i }
    ensures { result ≡ turn_at s order.now vectors.now i slots }
{
    let block = block_at(s.grid, order, vectors, i);
    let step = block::plan_block(s, samples, block, slots);
    Turn {
        index: index_at(s.grid, order, i),
        fits: records::record_fits(step.made),
        words: records::words_of(step.made),
        slots: step.slots,
    }
}

// The planes' bytes are those that offsets are told of: none is read.
// Stays by number, as the second pass does: i is the block's place in the order, where its column and
// its row stand, and its words and its index go.
pub fn all_fit(s: Settings, order: &[i32], vectors: &[i32], samples: Samples, n: usize) -> bool
    requires { Served s order.now vectors.now n }
    ensures { result ≡ all_fit s order.now vectors.now n }
{
    let mut slots = slots::at_start();
    for i in 0..n {
        let turn = turn_at(s, order, vectors, samples, i, slots);
        if !turn.fits {
            return false;
        }
        slots = turn.slots;
    }
    true
}

fn listed(words: Words) -> [i32; limits::WORDS_PER_RECORD]
    ensures { result ≡ word_list words }
{
    [
        words.full,
        words.overlay,
        words.u,
        words.v,
        words.average,
        words.pos,
        words.cpos,
        words.predictor,
        words.window_x,
        words.window_y,
        words.sad,
        words.last,
    ]
}

pub fn write_all(
    s: Settings,
    order: &[i32],
    vectors: &[i32],
    samples: Samples,
    n: usize,
    records: &mut [i32],
    indices: &mut [i32],
)
    requires served { Served s order.now vectors.now n }
    requires n_in_bounds { (words_per_record * n ≤ length records.old) × (n ≤ length indices.old) }
    ensures records_after { records.new ≡ words_upto s order.now vectors.now n ++ drop (words_per_record * n) records.old }
    ensures indices_after { indices.new ≡ indices_upto s order.now vectors.now n ++ drop n indices.old }
{
    let mut slots = slots::at_start();
    for i in 0..n {
        let turn = turn_at(s, order, vectors, samples, i, slots);
        let at = limits::WORDS_PER_RECORD * i;
        put_numbers::put(records, at, listed(turn.words));
        indices[i] = turn.index as i32;
        let handed_on = turn.slots;
        slots = handed_on;
    }
}
