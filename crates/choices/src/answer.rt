// How a picture call ends.
ghost use Rattle.std.specs.Prelude.{◌≡◌};
ghost use Rattle.choices.specs.Choices.{refusal_number_of, number_of, values_of, stopped_of};

use macroblock::arguments::Readers;
use macroblock::ending::Unfinished;

// Why an argument is refused: by the five checks, in their order, or by a macroblock; or by a number that no call answers.
#[derive(Clone, Copy, Debug, PartialEq, Eq)]
pub enum Refusal {
    Sides,
    Count,
    Entries,
    Memory,
    Partitions,
    Argument,
    Other(u32),
}

impl Refusal {
    pub fn number(self) -> u32
        ensures { result ≡ refusal_number_of self }
    {
        match self {
            Refusal::Sides => 1,
            Refusal::Count => 2,
            Refusal::Entries => 3,
            Refusal::Memory => 4,
            Refusal::Partitions => 5,
            Refusal::Argument => 9,
            Refusal::Other(n) => n,
        }
    }
}

// Why a picture call ended early: an argument was refused; the first partition or a token partition ran out in macroblock k.
#[derive(Clone, Copy, Debug, PartialEq, Eq)]
pub enum Stop {
    Refused(Refusal),
    NoModes(usize),
    NoTokens(usize),
}

// How the picture call ended: every macroblock is finished, so many; or why not.
pub type Decoded = Result<usize, Stop>;

// Its number: 0 where every macroblock is finished.
pub fn number(answer: Decoded) -> u32
    ensures { result ≡ number_of answer }
{
    match answer {
        Ok(_) => 0,
        Err(Stop::Refused(refusal)) => refusal.number(),
        Err(Stop::NoModes(_)) => 6,
        Err(Stop::NoTokens(_)) => 7,
    }
}

// The macroblocks finished, 0 where an argument was refused.
pub fn finished(answer: Decoded) -> usize
    ensures { result ≡ values_of answer }
{
    match answer {
        Ok(k) => k,
        Err(Stop::Refused(_)) => 0,
        Err(Stop::NoModes(k)) => k,
        Err(Stop::NoTokens(k)) => k,
    }
}

// How the picture ends where macroblock k is not finished.
pub fn stopped(answer: Result<Readers, Unfinished>, k: usize) -> Decoded
    ensures { result ≡ stopped_of answer k }
{
    match answer {
        Ok(_) => Ok(k),
        Err(Unfinished::NoModes) => Err(Stop::NoModes(k)),
        Err(Unfinished::NoTokens) => Err(Stop::NoTokens(k)),
        Err(Unfinished::Refused) => Err(Stop::Refused(Refusal::Argument)),
    }
}
