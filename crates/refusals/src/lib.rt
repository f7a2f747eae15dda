// Why an entry refuses: a name for each line of the paper's table, the number that a host is told, and what is printed.
#![tactic(auto)]

ghost use Rattle.std.specs.Prelude.{◌≡◌};
ghost use Rattle.refusals.specs.Numbers.{number_of, answer_number};

use std::error::Error;
use std::fmt;

#[derive(Clone, Copy, Debug, PartialEq, Eq)]
pub enum Refusal {
    Setting,
    Limit,
    PlaneLength,
    OutsideGrid,
    OutputLength,
    Misfit,
    Window,
    NoPlanFile,
    NoLevel,
}

impl From<Refusal> for u32 {
    ghost from_gives = { λ refusal number. number ≡ number_of refusal };

    fn from(refusal: Refusal) -> u32 {
        match refusal {
            Refusal::Setting => 1,
            Refusal::Limit => 2,
            Refusal::PlaneLength => 3,
            Refusal::OutsideGrid => 4,
            Refusal::OutputLength => 5,
            Refusal::Misfit => 6,
            Refusal::Window => 7,
            Refusal::NoPlanFile => 8,
            Refusal::NoLevel => 9,
        }
    }
}

impl fmt::Display for Refusal {
    fn fmt<W: fmt::Write>(&self, f: &mut fmt::Formatter<W>) -> fmt::Result {
        write!(f, "refused {}", u32::from(*self))
    }
}

impl Error for Refusal {}

// A host's number: 0 where it was done.
pub fn number(outcome: Result<(), Refusal>) -> u32
    ensures { result ≡ answer_number outcome }
{
    match outcome {
        Ok(()) => 0,
        Err(refusal) => refusal.into(),
    }
}
