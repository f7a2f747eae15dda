// A plan file, form 1: its trailer, its records, whether it is accepted. Any bytes are taken, and refused by 01's table.
#![tactic(auto)]

ghost use Rattle.std.specs.Prelude.{◌≡◌, true, ◌+◌, ◌*◌, ◌/◌, ◌≤◌, ◌<◌, List, ℤ, nat_abs, length, take};
ghost use Rattle.limits.specs.Sizes.{words_per_record, bytes_per_record};
ghost use Rattle.record_slice.specs.RecordSlice.{record_at};
ghost use Rattle.plan_file.specs.PlanFile.{words_of, trailer_of, lengths_hold, trailer_holds, is_plan_file, wide_file, counts_of, head_of, plan_of};

use records::Record;
use refusals::Refusal;
use std::marker::Model;

const RECORD: i64 = limits::BYTES_PER_RECORD as i64;

#[derive(Clone, Copy)]
pub struct Trailer {
    pub back: i32,
    pub count: i32,
    pub width: i32,
    pub height: i32,
    pub pel: i32,
    pub radius: i32,
    pub satd: i32,
    pub form: i32,
}

#[derive(Clone, Copy)]
pub struct Head {
    pub count: i32,
    pub searched: i32,
    pub kept: i32,
    pub width: i32,
    pub height: i32,
    pub pel: i32,
    pub slots: i32,
}

// Of a file's BAD records: how many windows hold a candidate, and how many are empty.
#[derive(Clone, Copy)]
struct Counts {
    searched: usize,
    kept: usize,
}

// A file's words: no file has more than 16,384.
#[derive(Drop)]
struct Words {
    all: [i32; 16384],
    len: usize,
}

impl Model for Words {
    ghost Value = { List ℤ };

    ghost view = { λ words. take words.len words.all };

    ghost invariant = { λ words. words.len ≤ 16384 };
}

impl Words {
    fn of(file: &[u8]) -> Words
        requires { length file.now ≤ 65536 }
        ensures { result ≡ words_of file.now }
    {
        Words {
            all: front_words(file),
            len: file.len() / 4,
        }
    }

    fn as_slice(&self) -> &[i32]
        ensures { result.now ≡ self.now }
    {
        &self.all[..self.len]
    }
}

// A file's words stand at its front, and are read as those in a lent slice are. Apart from `Words::of`, so that they are written where they stay.
fn front_words(file: &[u8]) -> [i32; 16384]
    requires { length file.now ≤ 65536 }
    ensures { take (length file.now / 4) result ≡ words_of file.now }
{
    let mut words = [0; 16384];
    let n = file.len() / 4;
    little_endian::words_into(file, &mut words[..n]);
    words
}

#[tactic(auto, unfolding(crate::specs::PlanFile::trailer_of))]
fn trailer_of(file: &[u8]) -> Trailer
    requires { 32 ≤ length file.now }
    ensures { result ≡ trailer_of file.now }
{
    let at = file.len() - 32;
    Trailer {
        back: little_endian::word_at(file, at),
        count: little_endian::word_at(file, at + 4),
        width: little_endian::word_at(file, at + 8),
        height: little_endian::word_at(file, at + 12),
        pel: little_endian::word_at(file, at + 16),
        radius: little_endian::word_at(file, at + 20),
        satd: little_endian::word_at(file, at + 24),
        form: little_endian::word_at(file, at + 28),
    }
}

// In 64 bits neither the records' bytes nor the sum is cut.
fn lengths_hold(back: i32, count: i32, bytes: usize) -> bool
    requires { bytes ≤ 65536 }
    ensures { result ≡ lengths_hold back count bytes }
{
    i64::from(back) + 32 == bytes as i64 && i64::from(back) == i64::from(count) * RECORD
}

#[tactic(auto, unfolding(crate::specs::PlanFile::trailer_holds))]
fn trailer_holds(t: Trailer, bytes: usize) -> bool
    requires { bytes ≤ 65536 }
    ensures { result ≡ trailer_holds t bytes }
{
    // Stays joined by `&`: by `&&` there is a way through for each test that fails, and the proof by cases found no end.
    lengths_hold(t.back, t.count, bytes)
        & limits::is_block(t.width, t.height)
        & limits::is_pel(t.pel)
        & whole::within(t.radius, 0, 3)
        & whole::within(t.satd, 0, 1)
        & (t.form == 1)
}

#[tactic(auto, unfolding(crate::specs::PlanFile::is_plan_file))]
pub fn is_plan_file(file: &[u8]) -> bool
    ensures { result ≡ is_plan_file file.now }
{
    (32..=65536).contains(&file.len()) && trailer_holds(trailer_of(file), file.len())
}

#[tactic(auto, using(crate::specs::Counting::none_counted, crate::specs::Counting::one_more_counted, crate::specs::Counting::counted_most))]
fn counts_of(words: &[i32], count: usize) -> Counts
    requires { words_per_record * count ≤ length words.now }
    ensures { result ≡ counts_of words.now count }
{
    let mut searched = 0;
    let mut kept = 0;
    for number in 0..count {
        let given = record_slice::record_at(words, number);
        searched += whole::one_where(window::is_searched(given));
        kept += whole::one_where(window::is_kept(given));
    }
    Counts { searched, kept }
}

// ---- asked once 8 is not given
// Stays by the bytes: each function is public, and is asked of the file itself; a type that holds the test would say each promise again beside it.
#[tactic(auto, using(crate::specs::Served::served, crate::specs::Served::records_held))]
pub fn count_of(file: &[u8]) -> usize
    requires { is_plan_file file.now ≡ true }
    ensures value { result ≡ nat_abs (trailer_of file.now).count }
    ensures result_in_bounds { bytes_per_record * result + 32 ≤ length file.now }
{
    trailer_of(file).count as usize
}

#[tactic(auto, using(crate::specs::Served::served, crate::specs::Served::records_held))]
pub fn is_too_wide(file: &[u8]) -> bool
    requires { is_plan_file file.now ≡ true }
    ensures { result ≡ wide_file file.now }
{
    let words = Words::of(file);
    record_slice::any_wide(words.as_slice(), trailer_of(file).radius, count_of(file))
}

#[tactic(auto, using(crate::specs::Served::served, crate::specs::Served::records_held))]
pub fn record_of(file: &[u8], number: usize) -> Record
    requires { (is_plan_file file.now ≡ true) × (number < nat_abs (trailer_of file.now).count) }
    ensures { result ≡ record_at (words_of file.now) number }
{
    let words = Words::of(file);
    record_slice::record_at(words.as_slice(), number)
}

#[tactic(auto, using(crate::specs::Served::served, crate::specs::Served::records_held, crate::specs::Counting::counted_most), unfolding(crate::specs::PlanFile::head_of))]
pub fn head_of(file: &[u8]) -> Head
    requires { is_plan_file file.now ≡ true }
    ensures { result ≡ head_of file.now }
{
    let t = trailer_of(file);
    let words = Words::of(file);
    let counts = counts_of(words.as_slice(), count_of(file));
    Head {
        count: t.count,
        searched: counts.searched as i32,
        kept: counts.kept as i32,
        width: t.width,
        height: t.height,
        pel: t.pel,
        slots: window::slots_of(t.radius),
    }
}

#[tactic(auto, unfolding(crate::specs::PlanFile::plan_of))]
pub fn check_plan_file(file: &[u8]) -> Result<Head, Refusal>
    ensures { result ≡ plan_of file.now }
{
    if !is_plan_file(file) {
        return Err(Refusal::NoPlanFile);
    }
    if is_too_wide(file) {
        return Err(Refusal::Window);
    }
    Ok(head_of(file))
}
