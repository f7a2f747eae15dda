// A tile of differences read from text: sixteen whole numbers from -255 to 255, with blanks between them. A number is
// looked up by its place, each time from the front of the text, so that nothing is kept between two of them.
#![tactic(auto)]

ghost use Rattle.std.specs.Prelude.{◌≡◌, ◌+◌, ◌≤◌, length};
ghost use Rattle.tile_input.specs.Input.{is_blank, is_digit, signed_by, number_at, row_from, tile_from, reading_of};
ghost use Rattle.tile_input.specs.Parts.{is_begun, lengthened, grown, after, told};

use distance::{Quad, Tile};
use std::error::Error;
use std::fmt;

// A word as far as it is read: none begun, a minus alone, digits (behind a minus, or not), or no number from -255 to 255.
#[derive(Clone, Copy)]
enum Word {
    Unbegun,
    Minus,
    Digits(bool, u8),
    Wrong,
}

// Why no number stands at a place of the text: the word there is none, or the text ends before it.
#[derive(Clone, Copy)]
pub enum NoNumber {
    Wrong,
    Missing,
}

// Why there is no tile: the word at a place is wrong, the text ends before a place, there are more words.
#[derive(Clone, Copy, Debug)]
pub enum Unread {
    Wrong(usize),
    Missing(usize),
    More,
}

impl fmt::Display for Unread {
    fn fmt<W: fmt::Write>(&self, f: &mut fmt::Formatter<W>) -> fmt::Result {
        match self {
            Unread::Wrong(place) => {
                let word = place.wrapping_add(1);
                write!(f, "word {word} is no whole number from -255 to 255")
            }
            Unread::Missing(place) => {
                write!(f, "the text ends after {place} numbers, and a tile has 16")
            }
            Unread::More => write!(f, "more than 16 words"),
        }
    }
}

impl Error for Unread {}

fn is_blank(byte: u8) -> bool
    ensures { result ≡ is_blank byte }
{
    matches!(byte, b' ' | b'\t' | b'\n' | b'\r')
}

fn is_digit(byte: u8) -> bool
    ensures { result ≡ is_digit byte }
{
    byte.is_ascii_digit()
}

// One digit more. What is wrong stays wrong, so a number may stop growing at 255.
fn lengthen(negative: bool, size: u8, byte: u8) -> Word
    ensures { result ≡ lengthened negative size byte }
{
    if !is_digit(byte) {
        return Word::Wrong;
    }
    let next = u32::from(size) * 10 + u32::from(byte - b'0');
    if 255 < next {
        return Word::Wrong;
    }
    Word::Digits(negative, next as u8)
}

fn grow(word: Word, byte: u8) -> Word
    ensures { result ≡ grown word byte }
{
    match word {
        Word::Unbegun if byte == b'-' => Word::Minus,
        Word::Unbegun => lengthen(false, 0, byte),
        Word::Minus => lengthen(true, 0, byte),
        Word::Digits(negative, size) => lengthen(negative, size, byte),
        Word::Wrong => Word::Wrong,
    }
}

fn is_begun(word: Word) -> bool
    ensures { result ≡ is_begun word }
{
    !matches!(word, Word::Unbegun)
}

fn word_after(word: Word, byte: u8) -> Word
    ensures { result ≡ after word byte }
{
    if is_blank(byte) {
        return Word::Unbegun;
    }
    grow(word, byte)
}

fn signed_by(negative: bool, size: u8) -> i16
    ensures { result ≡ signed_by negative size }
{
    let size = i16::from(size);
    if negative { -size } else { size }
}

// A minus alone is no number.
fn tell(word: Word) -> Result<i16, NoNumber>
    ensures { result ≡ told word }
{
    match word {
        Word::Unbegun => Err(NoNumber::Missing),
        Word::Minus => Err(NoNumber::Wrong),
        Word::Digits(negative, size) => Ok(signed_by(negative, size)),
        Word::Wrong => Err(NoNumber::Wrong),
    }
}

// So many words are passed, and the next one is told.
fn number_at(text: &[u8], place: usize) -> Result<i16, NoNumber>
    ensures { result ≡ number_at text.now place }
{
    let mut word = Word::Unbegun;
    let mut left = place;
    for byte in text {
        if is_blank(*byte) & is_begun(word) {
            if left == 0 {
                return tell(word);
            }
            left -= 1;
        }
        word = word_after(word, *byte);
    }
    if 0 < left {
        return Err(NoNumber::Missing);
    }
    tell(word)
}

fn row_from(numbers: &[i16], at: usize) -> Quad
    requires { at + 4 ≤ length numbers.now }
    ensures { result ≡ row_from numbers.now at }
{
    Quad {
        a: numbers[at],
        b: numbers[at + 1],
        c: numbers[at + 2],
        d: numbers[at + 3],
    }
}

fn tile_from(numbers: &[i16]) -> Tile
    requires { length numbers.now ≡ 16 }
    ensures { result ≡ tile_from numbers.now }
{
    Tile {
        a: row_from(numbers, 0),
        b: row_from(numbers, 4),
        c: row_from(numbers, 8),
        d: row_from(numbers, 12),
    }
}

pub fn read_tile(text: &[u8]) -> Result<Tile, Unread>
    ensures { result ≡ reading_of text.now }
{
    let mut numbers = [0; 16];
    // Stays by number: a number is looked up by its place.
    for place in 0..16 {
        match number_at(text, place) {
            Ok(number) => numbers[place] = number,
            Err(NoNumber::Wrong) => return Err(Unread::Wrong(place)),
            Err(NoNumber::Missing) => return Err(Unread::Missing(place)),
        }
    }
    match number_at(text, 16) {
        Ok(_) => Err(Unread::More),
        Err(NoNumber::Wrong) => Err(Unread::More),
        Err(NoNumber::Missing) => Ok(tile_from(&numbers)),
    }
}
