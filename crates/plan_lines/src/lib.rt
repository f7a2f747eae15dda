// The lines of a plan file's report, as text in a lent line. Any file and any number are taken, and refused by 01's table.
#![tactic(auto)]

ghost use Rattle.std.specs.Prelude.{◌≡◌, ◌++◌, ◌+◌, ◌≤◌, length};
ghost use Rattle.refusals.specs.Numbers.{answered};
ghost use Rattle.plan_lines.specs.Report.{pair_text, offset_text, head_text, line_text, text_number, line_after, head_answer, line_answer, head_line, line_line};

use plan_file::Head;
use records::{Offset, Pair, Record};
use refusals::Refusal;
use report_text::Text;

fn put_pair(text: &mut Text<192>, label: &[u8], pair: Pair)
    requires { length text.old + length label.now + 23 ≤ 192 }
    ensures puts { text.new ≡ text.old ++ (label.now ++ pair_text pair) }
    ensures upper_bound { length text.new ≤ length text.old + length label.now + 23 }
{
    text.put_two(label, pair.first, b",", pair.second);
}

fn put_offset(text: &mut Text<192>, label: &[u8], offset: Offset)
    requires { length text.old + length label.now + 11 ≤ 192 }
    ensures puts { text.new ≡ text.old ++ (label.now ++ offset_text offset) }
    ensures upper_bound { length text.new ≤ length text.old + length label.now + 11 }
{
    match offset {
        Some(place) => text.put_field(label, place),
        None => {
            text.put(label);
            text.put(b"none");
        }
    }
}

// Every number takes at most 11 bytes, and so no line more than 192.
fn head_text(head: Head) -> Text<192>
    ensures { result ≡ head_text head }
{
    let mut text = Text::new();
    text.put_field(b"plan blocks=", head.count);
    text.put_two(b" searched=", head.searched, b" kept=", head.kept);
    text.put_two(b" size=", head.width, b"x", head.height);
    text.put_two(b" pel=", head.pel, b" slots=", head.slots);
    text.put(b"\n");
    text
}

fn line_text(number: i32, given: Record) -> Text<192>
    ensures { result ≡ line_text number given }
{
    let bad = window::bad_flag(given.flags);
    let half = window::half_flag(given.flags);
    let mut text = Text::new();
    text.put_two(b"", number, b" bad=", bad);
    text.put_two(b" half=", half, b" lambda=", given.lambda);
    put_pair(&mut text, b" predictor=", given.predictor);
    text.put_field(b" sad=", given.sad);
    put_offset(&mut text, b" average=", given.average);
    put_pair(&mut text, b" window=", given.window_x);
    put_pair(&mut text, b",", given.window_y);
    text.put(b"\n");
    text
}

// 5 is below 7: a window is held against the file only where the line has room.
fn lay_unless(line: &mut [u8], text: &[u8], wide: bool) -> Result<usize, Refusal>
    ensures answer { result ≡ answered (text_number wide text.now (length line.old)) (length text.now) }
    ensures line { line.new ≡ line_after (text_number wide text.now (length line.old)) text.now line.old }
{
    if wide && text.len() <= line.len() {
        return Err(Refusal::Window);
    }
    report_text::lay(line, text)
}

// How many bytes of the line are the text's.
#[tactic(auto, unfolding(crate::specs::Report::head_answer, crate::specs::Report::head_line))]
pub fn report_head(file: &[u8], line: &mut [u8]) -> Result<usize, Refusal>
    ensures answer { result ≡ head_answer file.now (length line.old) }
    ensures line { line.new ≡ head_line file.now line.old }
{
    if !plan_file::is_plan_file(file) {
        return Err(Refusal::NoPlanFile);
    }
    let text = head_text(plan_file::head_of(file));
    lay_unless(line, text.as_bytes(), plan_file::is_too_wide(file))
}

#[tactic(auto, unfolding(crate::specs::Report::line_answer, crate::specs::Report::line_line))]
pub fn report_line(file: &[u8], number: usize, line: &mut [u8]) -> Result<usize, Refusal>
    ensures answer { result ≡ line_answer file.now number (length line.old) }
    ensures line { line.new ≡ line_line file.now number line.old }
{
    if !plan_file::is_plan_file(file) {
        return Err(Refusal::NoPlanFile);
    }
    if plan_file::count_of(file) <= number {
        return Err(Refusal::OutsideGrid);
    }
    let text = line_text(number as i32, plan_file::record_of(file, number));
    lay_unless(line, text.as_bytes(), plan_file::is_too_wide(file))
}
