// The report of the plan file on standard input, or `refused 8` or `refused 7`. One byte more than a
// file may have is read, so that a longer one is seen to be too long.
#![tactic(auto)]

ghost use Rattle.std.specs.Prelude.{◌<◌, ◌≤◌, nat_abs};
ghost use Rattle.plan_file.specs.PlanFile.{trailer_of};
ghost use Rattle.plan_report.specs.Accepted.{Accepted};

use refusals::Refusal;
use std::fmt;
use std::fmt::Write;

// Standard output. What can't be written is left out.
#[derive(Drop)]
struct Output;

impl fmt::Write for Output {
    fn write_str(&mut self, text: &str) -> fmt::Result {
        io::write_all(1, text.as_bytes());
        Ok(())
    }
}

// A first line has at most 66 bytes, so that it is never too long for this one.
#[tactic(auto, using(plan_lines::specs::Lengths::head_fits, plan_lines::specs::Lengths::head_most))]
fn print_head(file: &[u8])
    requires { Accepted file.now }
{
    let mut line = [0; 66];
    let bytes = plan_lines::report_head(file, &mut line).unwrap();
    io::write_all(1, &line[..bytes]);
}

// A record's line has at most 131.
#[tactic(auto, using(plan_lines::specs::Lengths::line_fits, plan_lines::specs::Lengths::line_most, plan_file::specs::Served::served))]
fn print_line(file: &[u8], number: usize)
    requires { Accepted file.now × (number < nat_abs (trailer_of file.now).count) }
{
    let mut line = [0; 131];
    let bytes = plan_lines::report_line(file, number, &mut line).unwrap();
    io::write_all(1, &line[..bytes]);
}

fn print_lines(file: &[u8], count: usize)
    requires { Accepted file.now × (count ≤ nat_abs (trailer_of file.now).count) }
{
    for number in 0..count {
        print_line(file, number);
    }
}

fn report(file: &[u8]) -> Result<(), Refusal> {
    let head = plan_file::check_plan_file(file)?;
    print_head(file);
    print_lines(file, head.count as usize);
    Ok(())
}

fn main() {
    let mut bytes = [0; 65537];
    let n = io::read_full(0, &mut bytes);
    if let Err(refusal) = report(&bytes[..n]) {
        let _ = write!(Output, "{refusal}\n");
    }
}
