// A record's 12 words, and what they hold. An absent offset is a case of its own. Only here, in a
// word, is it a number.
#![tactic(auto)]

ghost use Rattle.std.specs.Prelude.{◌≡◌};
ghost use Rattle.records.specs.Lambda.{quarter_of, third_of};
ghost use Rattle.records.specs.Packing.{pair_fits, pair_word, packed_pair, offset_fits, offset_word, last_fits, last_word, offsets_fit, pairs_fit, record_fits, record_words, packed_record};
ghost use Rattle.records.specs.Unpacking.{pair_of, offset_of, record_of};

// Where a sample is, or that there is none.
pub type Offset = Option<i32>;

// Two numbers that share a word.
#[derive(Clone, Copy, PartialEq, Eq, Debug)]
pub struct Pair {
    pub first: i32,
    pub second: i32,
}

// Stays with lambda and flags as numbers: `record_fits` is asked of any, those beyond the limits too.
#[derive(Clone, Copy, PartialEq, Eq, Debug)]
pub struct Record {
    pub full: Offset,
    pub overlay: Offset,
    pub u: Offset,
    pub v: Offset,
    pub average: Offset,
    pub pos: Pair,
    pub cpos: Pair,
    pub predictor: Pair,
    pub window_x: Pair,
    pub window_y: Pair,
    pub sad: i32,
    pub lambda: i32,
    pub flags: i32,
}

// A record's 12 words, in their order.
#[derive(Clone, Copy, PartialEq, Eq, Debug)]
pub struct Words {
    pub full: i32,
    pub overlay: i32,
    pub u: i32,
    pub v: i32,
    pub average: i32,
    pub pos: i32,
    pub cpos: i32,
    pub predictor: i32,
    pub window_x: i32,
    pub window_y: i32,
    pub sad: i32,
    pub last: i32,
}

// A setting's lambda for a plain block. The shift rounds down.
pub fn quarter(lambda: i32) -> i32
    ensures { result ≡ quarter_of lambda }
{
    lambda >> 2
}

// The share of a negative block. The division rounds toward zero.
pub fn third(value: i32) -> i32
    ensures { result ≡ third_of value }
{
    value / 3
}

fn pair_fits(pair: Pair) -> bool
    ensures { result ≡ pair_fits pair }
{
    whole::fits_i16(pair.first) & whole::fits_i16(pair.second)
}

// The first part in the low 16 bits, the second in the high 16. Of a part that doesn't fit, its
// low 16 bits.
fn pair_word(pair: Pair) -> i32
    ensures { result ≡ pair_word pair }
{
    whole::wrapping_add(pair.second << 16, pair.first & 65535)
}

// Stays a function, as the other three that pack and unpack do, and no `From` or `TryFrom`: they are entries, and theorems (crate sameness) name their contracts.
#[tactic(auto, unfolding(crate::specs::Packing::packed_pair))]
pub fn pack_pair(first: i32, second: i32) -> Option<i32>
    ensures { result ≡ packed_pair first second }
{
    let pair = Pair { first, second };
    pair_fits(pair).then(|| pair_word(pair))
}

// The shift up and down again copies the sign of the low 16 bits.
pub fn unpack_pair(word: i32) -> Pair
    ensures { result ≡ pair_of word }
{
    Pair {
        first: (word << 16) >> 16,
        second: word >> 16,
    }
}

fn offset_fits(offset: Offset) -> bool
    ensures { result ≡ offset_fits offset }
{
    offset != Some(i32::MIN)
}

fn offset_word(offset: Offset) -> i32
    ensures { result ≡ offset_word offset }
{
    offset.unwrap_or(i32::MIN)
}

fn offset_of(word: i32) -> Offset
    ensures { result ≡ offset_of word }
{
    match word {
        i32::MIN => None,
        place => Some(place),
    }
}

fn last_fits(lambda: i32, flags: i32) -> bool
    ensures { result ≡ last_fits lambda flags }
{
    whole::within(lambda, -268435456, 268435455) & whole::within(flags, 0, 3)
}

fn last_word(lambda: i32, flags: i32) -> i32
    ensures { result ≡ last_word lambda flags }
{
    whole::wrapping_add(lambda << 2, flags)
}

fn offsets_fit(given: Record) -> bool
    ensures { result ≡ offsets_fit given }
{
    offset_fits(given.full)
        & offset_fits(given.overlay)
        & offset_fits(given.u)
        & offset_fits(given.v)
        & offset_fits(given.average)
}

fn pairs_fit(given: Record) -> bool
    ensures { result ≡ pairs_fit given }
{
    pair_fits(given.pos)
        & pair_fits(given.cpos)
        & pair_fits(given.predictor)
        & pair_fits(given.window_x)
        & pair_fits(given.window_y)
}

pub fn record_fits(given: Record) -> bool
    ensures { result ≡ record_fits given }
{
    offsets_fit(given) & pairs_fit(given) & last_fits(given.lambda, given.flags)
}

// The 12 words. Of a record that doesn't fit they are not all of it.
pub fn words_of(given: Record) -> Words
    ensures { result ≡ record_words given }
{
    Words {
        full: offset_word(given.full),
        overlay: offset_word(given.overlay),
        u: offset_word(given.u),
        v: offset_word(given.v),
        average: offset_word(given.average),
        pos: pair_word(given.pos),
        cpos: pair_word(given.cpos),
        predictor: pair_word(given.predictor),
        window_x: pair_word(given.window_x),
        window_y: pair_word(given.window_y),
        sad: given.sad,
        last: last_word(given.lambda, given.flags),
    }
}

#[tactic(auto, unfolding(crate::specs::Packing::packed_record))]
pub fn pack_record(given: Record) -> Option<Words>
    ensures { result ≡ packed_record given }
{
    record_fits(given).then(|| words_of(given))
}

pub fn unpack_record(words: Words) -> Record
    ensures { result ≡ record_of words }
{
    Record {
        full: offset_of(words.full),
        overlay: offset_of(words.overlay),
        u: offset_of(words.u),
        v: offset_of(words.v),
        average: offset_of(words.average),
        pos: unpack_pair(words.pos),
        cpos: unpack_pair(words.cpos),
        predictor: unpack_pair(words.predictor),
        window_x: unpack_pair(words.window_x),
        window_y: unpack_pair(words.window_y),
        sad: words.sad,
        lambda: words.last >> 2,
        flags: words.last & 3,
    }
}
