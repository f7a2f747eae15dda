// Pairs and records that the Rust was asked about, compared: a pair to pack, a word to unpack, a
// record's 18 values to pack, and 12 words to unpack. Packing answers 0 and what it made, or 6 alone.
#![tactic(auto)]

ghost use Rattle.std.specs.Prelude.{◌≡◌, true, ◌⊎◌};
ghost use Rattle.cases.specs.Places.{IsSized};

use cases::Case;
use records::{Offset, Pair, Record, Words};
use whole::wrap32;

// In a vector an offset is a word, in which the least number is absent.
fn offset(word: i64) -> Offset {
    if word == i64::from(i32::MIN) {
        None
    } else {
        Some(wrap32(word))
    }
}

fn pair(first: i64, second: i64) -> Pair {
    Pair {
        first: wrap32(first),
        second: wrap32(second),
    }
}

// The record of its 18 numbers.
fn record(numbers: [i64; 18]) -> Record {
    let [
        full,
        overlay,
        u,
        v,
        average,
        pos_x,
        pos_y,
        cpos_x,
        cpos_y,
        x,
        y,
        least_x,
        greatest_x,
        least_y,
        greatest_y,
        sad,
        lambda,
        flags,
    ] = numbers;
    Record {
        full: offset(full),
        overlay: offset(overlay),
        u: offset(u),
        v: offset(v),
        average: offset(average),
        pos: pair(pos_x, pos_y),
        cpos: pair(cpos_x, cpos_y),
        predictor: pair(x, y),
        window_x: pair(least_x, greatest_x),
        window_y: pair(least_y, greatest_y),
        sad: wrap32(sad),
        lambda: wrap32(lambda),
        flags: wrap32(flags),
    }
}

fn words(numbers: [i32; 12]) -> Words {
    let [
        full,
        overlay,
        u,
        v,
        average,
        pos,
        cpos,
        predictor,
        window_x,
        window_y,
        sad,
        last,
    ] = numbers;
    Words {
        full,
        overlay,
        u,
        v,
        average,
        pos,
        cpos,
        predictor,
        window_x,
        window_y,
        sad,
        last,
    }
}

// Whether these are numbers of 32 bits, which an answer's have to be, since more is lost when it is read.
fn fit(numbers: &[i64]) -> bool {
    numbers.iter().all(|number| i32::try_from(*number).is_ok())
}

pub fn pair_agrees(case: &Case) -> bool
    ensures { result ≡ true → IsSized 2 1 case.now ⊎ IsSized 2 2 case.now }
{
    let Some(words) = case.words::<2>() else {
        return false;
    };
    let [first, second] = words;
    match records::pack_pair(first, second) {
        Some(word) => case.answered(&[0, word]),
        None => case.answered(&[6]),
    }
}

pub fn unpair_agrees(case: &Case) -> bool
    ensures { result ≡ true → IsSized 1 2 case.now }
{
    let Some(words) = case.words::<1>() else {
        return false;
    };
    let [word] = words;
    let Pair { first, second } = records::unpack_pair(word);
    case.answered(&[first, second])
}

pub fn record_agrees(case: &Case) -> bool
    ensures { result ≡ true → IsSized 18 1 case.now ⊎ IsSized 18 13 case.now }
{
    let Some(given) = case.inputs.as_array::<18>() else {
        return false;
    };
    let Some(packed) = records::pack_record(record(*given)) else {
        return case.answered(&[6]);
    };
    let [0, answer @ ..] = case.answers else {
        return false;
    };
    let Some(answer) = answer.as_array::<12>() else {
        return false;
    };
    fit(answer) && words(answer.map(wrap32)) == packed
}

pub fn unrecord_agrees(case: &Case) -> bool
    ensures { result ≡ true → IsSized 12 18 case.now }
{
    let Some(given) = case.words::<12>() else {
        return false;
    };
    let Some(answer) = case.answers.as_array::<18>() else {
        return false;
    };
    fit(answer) && record(*answer) == records::unpack_record(words(given))
}
