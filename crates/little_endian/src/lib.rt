// A word as four bytes, the lowest first: written, and read, one or as many as there is room for.
#![tactic(auto)]

ghost use Rattle.std.specs.Prelude.{◌≡◌, ◌++◌, ◌+◌, ◌*◌, ◌≤◌, length, drop};
ghost use Rattle.little_endian.specs.Bytes.{bytes_of, word_at, words_upto};

// The first four bytes of out are the word's, the others stay.
pub fn put_word(out: &mut [u8], word: i32)
    requires { 4 ≤ length out.old }
    ensures { out.new ≡ bytes_of word ++ drop 4 out.old }
{
    let [a, b, c, d] = word.to_le_bytes();
    out[..4].copy_from_slice(&[a, b, c, d]);
}

// The word whose four bytes stand at a place.
pub fn word_at(bytes: &[u8], at: usize) -> i32
    requires { at + 4 ≤ length bytes.now }
    ensures { result ≡ word_at bytes.now at }
{
    i32::from_le_bytes([bytes[at], bytes[at + 1], bytes[at + 2], bytes[at + 3]])
}

// The words from the first byte on, as many as there is room for.
#[tactic(auto, using(crate::specs::WordsRead::words_none, crate::specs::WordsRead::words_all))]
pub fn words_into(bytes: &[u8], words: &mut [i32])
    requires { 4 * length words.old ≤ length bytes.now }
    ensures { words.new ≡ words_upto bytes.now (length words.old) }
{
    for (i, word) in words.iter_mut().enumerate() {
        *word = word_at(bytes, 4 * i);
    }
}
