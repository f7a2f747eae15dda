// Replays the Rust's frozen answers, and compares: a line of a case begins with the word of its kind.
// Names each line that differs; the last line counts.
#![tactic(auto)]

ghost use Rattle.std.specs.Prelude.{◌≤◌, length};

use cases::{Case, Line, Outcome, Tally};
use std::fmt;
use std::fmt::Write;

// Standard output. The replay goes on where nothing can be written.
#[derive(Drop)]
struct Output;

impl fmt::Write for Output {
    fn write_str(&mut self, text: &str) -> fmt::Result {
        io::write_all(1, text.as_bytes());
        Ok(())
    }
}

// Whether the port answers as the case has it. A kind goes by the oracle's name for what was asked of the
// Rust; a line with another word is of no known kind.
fn agrees(kind: &[u8], case: &Case) -> bool {
    match kind {
        b"pair" => replay_records::pair_agrees(case),
        b"unpair" => replay_records::unpair_agrees(case),
        b"record" => replay_records::record_agrees(case),
        b"unrecord" => replay_records::unrecord_agrees(case),
        b"cost" => replay_measures::cost_agrees(case),
        b"score" => replay_measures::score_agrees(case),
        b"root" => replay_measures::root_agrees(case),
        b"offset" => replay_plane::offset_agrees(case),
        b"block" => replay_plane::block_agrees(case),
        b"sample" => replay_plane::sample_agrees(case),
        b"absent" => replay_plane::absent_agrees(case),
        b"choose" => replay_choosing::choose_agrees(case),
        b"serpentine_position" => replay_grid::serpentine_position_agrees(case),
        b"serpentine_block" => replay_grid::serpentine_block_agrees(case),
        b"serpentine_order" => replay_grid::serpentine_order_agrees(case),
        b"finish" => replay_grid::finish_agrees(case),
        b"plane_size" => replay_levels::plane_size_agrees(case),
        b"level_offset" => replay_levels::level_offset_agrees(case),
        _ => false,
    }
}

// A line whose numbers are none of a vector differs.
fn outcome(text: &[u8], room: &mut [i64]) -> Outcome {
    let Some(line) = Line::parse(text) else {
        return Outcome::NoCase;
    };
    match Case::parse(line.numbers, room) {
        Some(case) if agrees(line.word, &case) => Outcome::Agrees,
        _ => Outcome::Differs,
    }
}

// The tally after the lines of a text.
fn replayed(text: &[u8], before: Tally) -> Tally {
    let mut room = [0; 8200];
    let mut tally = before;
    for line in text.split_inclusive(|byte| *byte == b'\n') {
        let outcome = outcome(line, &mut room);
        tally = tally.tallied(outcome);
        if outcome == Outcome::Differs {
            let _ = writeln!(Output, "differs: line {}", tally.lines);
        }
    }
    tally
}

// Where the last line that ends in the text does, or where the text does.
fn lines_end(text: &[u8]) -> usize
    ensures { result ≤ length text.now }
{
    text.iter()
        .rposition(|byte| *byte == b'\n')
        .map_or(text.len(), |last| last + 1)
}

// The input in parts as long as the text that is lent, since no array as long as all vectors is proved.
// A line that a part cuts goes with the next part. Where nothing is left a part is empty, and there are
// far fewer parts than turns.
fn replay(text: &mut [u8]) -> Tally {
    let mut tally = Tally::default();
    let mut held = 0;
    for _ in 0..65536 {
        let n = held + io::read_full(0, &mut text[held..]);
        if n == 0 {
            break;
        }
        let end = lines_end(&text[..n]);
        tally = replayed(&text[..end], tally);
        text.copy_within(end..n, 0);
        held = n - end;
    }
    tally
}

fn main() {
    let mut text = [0; 262144];
    let tally = replay(&mut text);
    let _ = writeln!(Output, "{} cases, {} differ", tally.cases, tally.differ);
}
