// Test vectors: a line for each case. It begins with the word of its kind; whole numbers stand behind it,
// the inputs left of an `=` and the answers right of it. A line that is empty or begins with # is no case.
#![tactic(auto)]

ghost use Rattle.std.specs.Prelude.{◌≡◌, ◌≤◌, ◌+◌, ◌++◌, true, length, IfSome, map, get_or, pos};
ghost use Rattle.std.specs.List.{range_with_len};
ghost use Rattle.std.specs.Int.{w32};
ghost use Rattle.whole.specs.Numbers.{wrapped};
ghost use Rattle.cases.specs.Samples.{limited_to, up_to};
ghost use Rattle.cases.specs.Tallies.{tallied_by};
ghost use Rattle.cases.specs.Told.{Tells};

// A line that is a case: its word, and the text of its numbers.
#[derive(Clone, Copy)]
pub struct Line<'a> {
    pub word: &'a [u8],
    pub numbers: &'a [u8],
}

impl<'a> Line<'a> {
    // The word ends at a blank, or with the line.
    pub fn parse(text: &'a [u8]) -> Option<Line<'a>>
        ensures { IfSome result (λ line. line.word.now ++ line.numbers.now ≡ text.now) }
    {
        if matches!(text, [] | [b'#' | b'\n', ..]) {
            return None;
        }
        let end = text
            .iter()
            .position(|byte| matches!(byte, b' ' | b'\n'))
            .unwrap_or(text.len());
        let (word, numbers) = text.split_at(end);
        Some(Line { word, numbers })
    }
}

// The numbers of a case.
#[derive(Clone, Copy)]
pub struct Case<'a> {
    pub inputs: &'a [i64],
    pub answers: &'a [i64],
}

impl<'a> Case<'a> {
    // The numbers of a text, put into room. A text with something in it that no vector has is no case,
    // and neither is one that has more numbers than there is room for: one left out would be one that
    // nobody compares.
    pub fn parse(numbers: &[u8], room: &'a mut [i64]) -> Option<Case<'a>>
        ensures { IfSome result (λ case. length case.inputs.now + length case.answers.now ≤ length room.old) }
    {
        let equals = memchr::memchr(b'=', numbers)?;
        let inputs = put(&numbers[..equals], room)?;
        // A second `=` is no part of a number.
        let answers = put(&numbers[equals + 1..], &mut room[inputs..])?;
        let (inputs, behind) = room.split_at(inputs);
        Some(Case {
            inputs,
            answers: &behind[..answers],
        })
    }

    // The inputs as numbers of 32 bits, where there are just as many as are asked for.
    pub fn words<const N: usize>(&self) -> Option<[i32; N]>
        ensures long { IfSome result (λ _. length self.now.inputs.now ≡ N) }
        ensures value { IfSome result (λ words. words ≡ map (wrapped w32) self.now.inputs.now) }
    {
        if self.inputs.len() != N {
            return None;
        }
        let mut words = [0; N];
        for (place, input) in self.inputs.iter().enumerate() {
            words[place] = whole::wrap32(*input);
        }
        Some(words)
    }

    // Whether the answers are these values: none is missing, and none is there beside them.
    pub fn answered<T: Copy + Into<i64>>(&self, values: &[T]) -> bool
        ensures sized { result ≡ true → length self.now.answers.now ≡ length values.now }
        ensures told { Tells T.converts result values.now self.now.answers.now }
    {
        self.answers.len() == values.len()
            && self
                .answers
                .iter()
                .zip(values)
                .all(|(answer, value)| *answer == (*value).into())
    }
}

// How many numbers the text has, which are put into the first places.
fn put(text: &[u8], room: &mut [i64]) -> Option<usize>
    ensures { IfSome result (λ count. count ≤ length room.new) }
{
    let mut count = 0;
    for digits in text.split(|byte| matches!(byte, b' ' | b'\n')) {
        if digits.is_empty() {
            continue;
        }
        let number = number_of(digits)?;
        *room.get_mut(count)? = number;
        count += 1;
    }
    Some(count)
}

// No number of a vector has a plus, or more than 18 digits.
fn number_of(text: &[u8]) -> Option<i64> {
    let (negative, digits) = match text {
        [] | [b'-'] => return None,
        [b'-', digits @ ..] => (true, digits),
        _ => (false, text),
    };
    let size = digits.iter().try_fold(0, with_digit)?;
    let number = i64::try_from(size).ok()?;
    Some(if negative { -number } else { number })
}

fn with_digit(size: u64, byte: &u8) -> Option<u64> {
    if size < 100_000_000_000_000_000 && byte.is_ascii_digit() {
        Some(10 * size + u64::from(*byte - b'0'))
    } else {
        None
    }
}

// A number from 0 to most.
pub fn up_to(number: i64, most: usize) -> Option<usize>
    ensures value { result ≡ up_to most number }
    ensures bound { IfSome result (λ size. size ≤ most) }
{
    usize::try_from(number).ok().filter(|size| *size <= most)
}

// The same, or 0 for another.
pub fn limited(number: i64, most: usize) -> usize
    ensures { (result ≡ limited_to most number) × (result ≤ most) }
{
    up_to(number, most).unwrap_or(0)
}

// A sample: a number from 0 to 255, or 0 for another.
fn sample(number: i64) -> u8
    ensures { result ≡ limited_to 255 number }
{
    u8::try_from(number).unwrap_or(0)
}

// So many samples, of the first numbers; where there are no more, zeros.
pub fn bytes<const N: usize>(numbers: &[i64]) -> [u8; N]
    ensures { result ≡ map (λ k. limited_to 255 (get_or numbers.now k (pos 0))) (range_with_len 0 N) }
{
    let mut bytes = [0; N];
    for (place, byte) in bytes.iter_mut().enumerate() {
        *byte = numbers.get(place).map_or(0, |number| sample(*number));
    }
    bytes
}

// What a line is found to be.
#[derive(Clone, Copy, PartialEq, Eq)]
pub enum Outcome {
    NoCase,
    Agrees,
    Differs,
}

// How many lines were read, how many of them are cases, and how many of these differ.
#[derive(Clone, Copy, Default)]
pub struct Tally {
    pub lines: u64,
    pub cases: u64,
    pub differ: u64,
}

impl Tally {
    // The tally after one line more.
    pub fn tallied(self, outcome: Outcome) -> Tally
        ensures { result ≡ tallied_by self outcome }
    {
        let case = u64::from(outcome != Outcome::NoCase);
        let differs = u64::from(outcome == Outcome::Differs);
        Tally {
            lines: self.lines.wrapping_add(1),
            cases: self.cases.wrapping_add(case),
            differ: self.differ.wrapping_add(differs),
        }
    }
}
