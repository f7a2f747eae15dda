// Text put together in a buffer of its own: bytes, whole numbers in decimal, a label with its number;
// and a whole text laid into a line that a caller lends.
#![tactic(auto)]

ghost use Rattle.std.specs.Prelude.{◌≡◌, ℕ, ◌+◌, ◌≤◌, List, [], ◌++◌, length, take};
ghost use Rattle.report_text.specs.Text.{decimal};
ghost use Rattle.report_text.specs.Putting.{lent_answer, lent_line};

use itoa::Buffer;
use refusals::Refusal;
use std::marker::Model;

// At most N bytes. A contract sees those that were put.
#[derive(Drop)]
pub struct Text<const N: usize> {
    bytes: [u8; N],
    len: usize,
}

impl<const N: usize> Model for Text<N> {
    ghost Value = { List ℕ };

    ghost view = { λ text. take text.len text.bytes };

    ghost invariant = { λ text. text.len ≤ N };
}

impl<const N: usize> Text<N> {
    pub fn new() -> Text<N>
        ensures { result ≡ [] }
    {
        Text {
            bytes: [0; N],
            len: 0,
        }
    }

    pub fn as_bytes(&self) -> &[u8]
        ensures { result.now ≡ self.now }
    {
        &self.bytes[..self.len]
    }

    pub fn put(&mut self, text: &[u8])
        requires { length self.old + length text.now ≤ N }
        ensures { self.new ≡ self.old ++ text.now }
    {
        let end = self.len + text.len();
        let bytes = &mut self.bytes[..];
        bytes[self.len..end].copy_from_slice(text);
        self.len = end;
    }

    // An i32 takes at most 11 bytes.
    pub fn put_field(&mut self, label: &[u8], number: i32)
        requires { length self.old + length label.now + 11 ≤ N }
        ensures puts { self.new ≡ self.old ++ (label.now ++ decimal number) }
        ensures upper_bound { length self.new ≤ length self.old + length label.now + 11 }
    {
        let mut buffer = Buffer::new();
        self.put(label);
        self.put(buffer.format(number).as_bytes());
    }

    pub fn put_two(&mut self, label: &[u8], number: i32, then: &[u8], other: i32)
        requires { length self.old + length label.now + length then.now + 22 ≤ N }
        ensures puts { self.new ≡ self.old ++ (label.now ++ decimal number ++ (then.now ++ decimal other)) }
        ensures upper_bound { length self.new ≤ length self.old + length label.now + length then.now + 22 }
    {
        self.put_field(label, number);
        self.put_field(then, other);
    }
}

// The text goes to the front of the lent line where there is room for all of it. How many bytes it
// takes is answered.
pub fn lay(line: &mut [u8], text: &[u8]) -> Result<usize, Refusal>
    ensures answer { result ≡ lent_answer text.now (length line.old) }
    ensures line { line.new ≡ lent_line text.now line.old }
{
    if line.len() < text.len() {
        return Err(Refusal::OutputLength);
    }
    line[..text.len()].copy_from_slice(text);
    Ok(text.len())
}
