// The picture: one macroblock in its place (turn), all of them in order (rows), and the call.
#![tactic(auto)]

pub mod rows;
pub mod turn;

ghost use Rattle.std.specs.Prelude.{◌≡◌};
ghost use Rattle.lent.specs.Memory.{memory_of};
ghost use Rattle.tile.specs.Tile.{readers_of};
ghost use Rattle.modes.specs.Modes.{empty_context};
ghost use Rattle.macroblock.specs.Macroblock.{no_reads};
ghost use Rattle.choices.specs.declared.answer.Stop.TheVariants as Stop;
ghost use Rattle.choices.specs.Choices.{call_of};
ghost use Rattle.picture.specs.Picture.{ended_of, picture_of, cost_of};
ghost use Rattle.picture.specs.Halt.{halted_at, halted_of};

use crate::rows::{PictureRead, PictureStop, rows};
use blank::blank;
use choices::answer::{Refusal, Stop};
use choices::checks::refusal;
use coefficients::block::probabilities;
use header::frame::take;
use lent::sizes::Sizes;
use macroblock::arguments::SymbolCounts;
use modes::contexts::Context;
use tile::Tile;
use tile::partitions::openers;

// A call whose argument `bad` is refused stops in the state before the first macroblock, and reads nothing.
fn refused(bytes: &[u8], tile: Tile, bad: Refusal) -> PictureStop
    ensures { result ≡ record {
      answer = Err (Stop.Refused bad);
      reads = no_reads;
      reader = tile.reader;
      readers = readers_of bytes.now tile;
      left = empty_context;
    } }
{
    let first = tile.reader;
    PictureStop {
        answer: Err(Stop::Refused(bad)),
        reads: SymbolCounts {
            first: 0,
            tokens: 0,
        },
        reader: first,
        readers: openers(bytes, tile),
        left: Context::empty(),
    }
}

// The picture call, with the state that it stopped in, for a call that goes on from there. Where an argument is refused that is the state
// before the first macroblock.
pub fn halt(
    bytes: &[u8],
    tile: Tile,
    header: &[i32],
    y: &mut [u8],
    u: &mut [u8],
    v: &mut [u8],
    columns: &mut [u8],
    modes: &mut [u8],
    strengths: &mut [u8],
) -> PictureStop
    ensures { (halted_at result.answer result.reader result.readers result.left
        (memory_of y.new u.new v.new columns.new modes.new strengths.new)
        ≡ halted_of (call_of bytes.now tile header.now)
        (memory_of y.old u.old v.old
        columns.old modes.old strengths.old))
        × (result.reads ≡ cost_of (call_of bytes.now tile header.now)
        (memory_of y.old u.old v.old
        columns.old modes.old strengths.old)) }
{
    let checked = refusal(
        bytes,
        tile,
        header,
        Sizes {
            y: y.len(),
            u: u.len(),
            v: v.len(),
            columns: columns.len(),
            modes: modes.len(),
            strengths: strengths.len(),
        },
    );
    if let Err(bad) = checked {
        return refused(bytes, tile, bad);
    }
    blank(
        &mut y[..],
        &mut u[..],
        &mut v[..],
        &mut columns[..],
        &mut modes[..],
        &mut strengths[..],
    );
    let numbers = probabilities(header).unwrap();
    let frame = take(header).unwrap();
    rows(
        bytes,
        tile,
        frame,
        &numbers,
        &mut y[..],
        &mut u[..],
        &mut v[..],
        &mut columns[..],
        &mut modes[..],
        &mut strengths[..],
    )
}

// The picture call. Lent: w*h bytes of Y, (w/2)*(h/2) of U and V, 4 bytes a macroblock column, 20 and 6 bytes a macroblock. It also says
// how many symbols were read.
pub fn decode(
    bytes: &[u8],
    tile: Tile,
    header: &[i32],
    y: &mut [u8],
    u: &mut [u8],
    v: &mut [u8],
    columns: &mut [u8],
    modes: &mut [u8],
    strengths: &mut [u8],
) -> PictureRead
    ensures { (ended_of result.answer
        (memory_of y.new u.new v.new columns.new modes.new strengths.new)
        ≡ picture_of (call_of bytes.now tile header.now)
        (memory_of y.old u.old v.old
        columns.old modes.old strengths.old))
        × (result.reads ≡ cost_of (call_of bytes.now tile header.now)
        (memory_of y.old u.old v.old
        columns.old modes.old strengths.old)) }
{
    let stop = halt(bytes, tile, header, y, u, v, columns, modes, strengths);
    PictureRead {
        answer: stop.answer,
        reads: stop.reads,
    }
}
