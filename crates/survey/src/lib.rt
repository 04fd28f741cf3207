// The survey over a delivery (request M-110): what one picture counts (tally), records added (sums), and the call.
#![tactic(auto)]

pub mod sums;
mod tally;

ghost use Rattle.std.specs.Prelude.{◌≡◌};
ghost use Rattle.lent.specs.Memory.{memory_of};
ghost use Rattle.choices.specs.Choices.{call_of};
ghost use Rattle.survey.specs.Survey.{survey_ended, survey_of, told_of};

use crate::sums::{COUNTS, add};
use crate::tally::tally;
use choices::answer::{finished, number};
use macroblock::arguments::SymbolCounts;
use picture::decode;
use tile::Tile;

// The picture call's number, or 9 where there are not 37 counts, or 15 where one would pass 2^63-1; the macroblocks finished and the
// symbols read, both 0 after 9.
#[derive(Clone, Copy)]
pub struct Surveyed {
    pub number: u32,
    pub finished: usize,
    pub reads: SymbolCounts,
}

// The picture call's number where the counts were added, else the addition's.
fn told(number: u32, full: u32) -> u32
    ensures { result ≡ told_of number full }
{
    if full == 0 {
        return number;
    }
    full
}

// The picture call, folded into a record of 37 counts.
pub fn survey(
    bytes: &[u8],
    tile: Tile,
    header: &[i32],
    y: &mut [u8],
    u: &mut [u8],
    v: &mut [u8],
    columns: &mut [u8],
    modes: &mut [u8],
    strengths: &mut [u8],
    counts: &mut [u64],
) -> Surveyed
    ensures { survey_ended result
        (memory_of y.new u.new v.new columns.new modes.new strengths.new)
        counts.new
        ≡ survey_of (call_of bytes.now tile header.now)
        (memory_of y.old u.old v.old
        columns.old modes.old strengths.old)
        counts.old }
{
    if counts.len() != COUNTS {
        return Surveyed {
            number: 9,
            finished: 0,
            reads: SymbolCounts {
                first: 0,
                tokens: 0,
            },
        };
    }
    let d = decode(
        bytes,
        tile,
        header,
        &mut y[..],
        &mut u[..],
        &mut v[..],
        &mut columns[..],
        &mut modes[..],
        &mut strengths[..],
    );
    let answer = d.answer;
    let reads = d.reads;
    let number = number(answer);
    let finished = finished(answer);
    let added = tally(number, finished, reads, modes, strengths);
    let full = add(&mut counts[..], &added);
    let told = told(number, full);
    Surveyed {
        number: told,
        finished,
        reads,
    }
}
