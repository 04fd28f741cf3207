// The rescue call (request M-108): a picture whose token partition ends too soon goes on from its modes. The argument checks (checks), one
// macroblock in its place (turn), those after the stop (rest), the marks (marks), and the call.
#![tactic(auto)]

mod checks;
mod marks;
mod rest;
mod turn;

ghost use Rattle.std.specs.Prelude.{◌≡◌};
ghost use Rattle.lent.specs.Memory.{memory_of};
ghost use Rattle.choices.specs.Choices.{call_of};
ghost use Rattle.rescue.specs.Rescue.{rescue_ended, rescue_of, rescue_number_of, saved_count_of};

use crate::checks::refusal_with_marks;
use crate::marks::mark;
use crate::rest::rest;
use choices::answer::{Refusal, finished};
use lent::sizes::Sizes;
use picture::halt;
use tile::Tile;

// How many macroblocks are not grey; or the argument that was refused.
pub type Rescued = Result<usize, Refusal>;

// Its number: 0 where no argument was refused.
pub fn number(answer: Rescued) -> u32
    ensures { result ≡ rescue_number_of answer }
{
    match answer {
        Ok(_) => 0,
        Err(refusal) => refusal.number(),
    }
}

// The macroblocks marked 0 or 1, 0 where an argument was refused.
pub fn saved(answer: Rescued) -> usize
    ensures { result ≡ saved_count_of answer }
{
    match answer {
        Ok(n) => n,
        Err(_) => 0,
    }
}

// The picture call; then, where tokens ran out, the macroblocks from there on out of their modes. Lent besides what the picture call is lent:
// a byte a macroblock, which says 0 whole, 1 from modes, 2 grey.
pub fn rescue(
    bytes: &[u8],
    tile: Tile,
    header: &[i32],
    y: &mut [u8],
    u: &mut [u8],
    v: &mut [u8],
    columns: &mut [u8],
    modes: &mut [u8],
    strengths: &mut [u8],
    marks: &mut [u8],
) -> Rescued
    ensures { rescue_ended result
        (memory_of y.new u.new v.new columns.new modes.new strengths.new)
        marks.new
        ≡ rescue_of (call_of bytes.now tile header.now)
        (memory_of y.old u.old v.old
        columns.old modes.old strengths.old)
        marks.old }
{
    let sizes = Sizes {
        y: y.len(),
        u: u.len(),
        v: v.len(),
        columns: columns.len(),
        modes: modes.len(),
        strengths: strengths.len(),
    };
    if let Err(bad) = refusal_with_marks(bytes, tile, header, sizes, marks.len()) {
        return Err(bad);
    }
    let stop = halt(
        bytes,
        tile,
        header,
        &mut y[..],
        &mut u[..],
        &mut v[..],
        &mut columns[..],
        &mut modes[..],
        &mut strengths[..],
    );
    let answer = stop.answer;
    let whole = finished(answer);
    let saved = rest(
        bytes, tile, header, stop, y, u, v, columns, modes, strengths,
    );
    mark(marks, whole, saved);
    Ok(saved)
}
