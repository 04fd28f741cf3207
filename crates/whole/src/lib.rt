// One macroblock, whole (the source's vp8_macroblock): its modes, then its residual, then its three squares, its strengths and the
// contexts that it leaves. Where a byte is missing nothing is written.
#![tactic(auto)]

ghost use Rattle.std.specs.Prelude.{◌≡◌, ◌<◌};
ghost use Rattle.header.specs.Frame.{factors_at};
ghost use Rattle.modes.specs.Modes.{InRange, macroblock_of};
ghost use Rattle.reader.specs.Reading.{given};
ghost use Rattle.macroblock.specs.Macroblock.{planes_of, macroblock_called, to_macroblock_called, step_of, ready_of, macroblock_call_of, no_outcome, reads_made, macroblock_token_reads, reads_of, decode_reads, Ready, Tokens, Laid, FrameSizes, AroundSizes, tokens_called};

use header::entries::PROBABILITY_COUNT;
use header::frame::Frame;
use header::quantizers::Factors;
use macroblock::arguments::{Around, Place, Readers, SymbolCounts};
use macroblock::checks::{around_fine, frame_fine, laid};
use macroblock::ending::{ModeData, Outcome, Residue, Unfinished, complete, nothing};
use modes::whole::read_modes;
use reader::boolean::{Reader, valid};

// An outcome, and how many symbols were read for it.
#[derive(Clone, Copy)]
pub struct MacroblockRead {
    pub outcome: Outcome,
    pub reads: SymbolCounts,
}

// What is not finished, with what was read for it.
fn stopped(why: Unfinished, first: u64, tokens: u64) -> MacroblockRead
    ensures { (result.outcome ≡ no_outcome (Err why)) × (result.reads ≡ reads_made first tokens) }
{
    MacroblockRead {
        outcome: nothing(Err(why)),
        reads: SymbolCounts { first, tokens },
    }
}

fn factors_of(frame: Frame, segment: usize) -> Factors
    requires { segment < 4 }
    ensures { result ≡ factors_at frame segment }
{
    let factors = frame.factors;
    factors[segment]
}

// Whether what is read, and what it is read by, lies in its range. `size` is the length of the table. It also says what the types do: how
// long the arrays are, and that a byte is one.
fn ready(
    first: &[u8],
    tokens: &[u8],
    readers: Readers,
    frame: Frame,
    size: usize,
    around: Around,
) -> bool
    ensures { (result ≡ ready_of first.now tokens.now readers frame size around)
        × (FrameSizes frame × AroundSizes around) }
{
    let r = readers.first;
    let t = readers.token;
    (valid(first, r) & valid(tokens, t))
        & ((size == PROBABILITY_COUNT) & (around_fine(around) & frame_fine(frame)))
}

// The residual of a macroblock whose modes are read, what follows from it, and what both have read.
fn with_tokens(
    tokens: &[u8],
    t: Reader,
    frame: Frame,
    table: &[u8],
    around: Around,
    place: Place,
    m: ModeData,
    y: &mut [u8],
    u: &mut [u8],
    v: &mut [u8],
) -> MacroblockRead
    requires tokens { Tokens tokens.now t frame table.now around }
    requires in_range { InRange (macroblock_of m.kinds m.modes) }
    requires laid { Laid place (planes_of y.old u.old v.old) }
    ensures { (macroblock_called result.outcome y.new u.new v.new
        ≡ tokens_called tokens.now t frame table.now around place
        (macroblock_of m.kinds m.modes) m.next
        (planes_of y.old u.old v.old))
        × (result.reads ≡ reads_made m.reads
        (macroblock_token_reads tokens.now t frame table.now around
        (given (macroblock_of m.kinds m.modes) m.next))) }
{
    let kinds = m.kinds;
    let top = around.top;
    let left = around.left;
    let top_flags = top.flags;
    let left_flags = left.flags;
    let mut c = [0i16; 384];
    let f = factors_of(frame, usize::from(kinds.segment));
    let read = residual::decode(
        tokens,
        t,
        table,
        f,
        kinds.small,
        kinds.skip,
        top_flags,
        left_flags,
        &mut c,
    );
    let d = read.residual;
    let Ok((empty, after)) = d.answer else {
        return stopped(Unfinished::NoTokens, m.reads, read.reads);
    };
    let top_after = d.top;
    let left_after = d.left;
    let residue = Residue {
        after,
        empty,
        top: top_after,
        left: left_after,
    };
    MacroblockRead {
        outcome: complete(frame, place, m, residue, &c, y, u, v),
        reads: SymbolCounts {
            first: m.reads,
            tokens: read.reads,
        },
    }
}

// A macroblock of arguments in range.
fn step(
    first: &[u8],
    tokens: &[u8],
    readers: Readers,
    frame: Frame,
    table: &[u8],
    around: Around,
    place: Place,
    y: &mut [u8],
    u: &mut [u8],
    v: &mut [u8],
) -> MacroblockRead
    requires ready { Ready first.now tokens.now readers frame table.now around }
    requires laid { Laid place (planes_of y.old u.old v.old) }
    ensures { (macroblock_called result.outcome y.new u.new v.new
        ≡ (let p = planes_of y.old u.old v.old in
        to_macroblock_called p (step_of first.now tokens.now readers frame table.now around place p)))
        × (result.reads ≡ reads_of first.now tokens.now readers frame table.now around) }
{
    let mut modes = [0; 16];
    let r = readers.first;
    let t = readers.token;
    let announced = frame.announced;
    let top = around.top;
    let left = around.left;
    let top_modes = top.modes;
    let left_modes = left.modes;
    let read = read_modes(first, announced, r, top_modes, left_modes, &mut modes);
    let Ok((kinds, next)) = read.answer else {
        return stopped(Unfinished::NoModes, read.reads, 0);
    };
    let m = ModeData {
        kinds,
        modes,
        next,
        reads: read.reads,
    };
    with_tokens(tokens, t, frame, table, around, place, m, y, u, v)
}

// A macroblock: its modes from `first`, its tokens from `tokens`. Whatever is not finished leaves the planes as they were, and says all the
// same what was read for it.
pub fn decode(
    first: &[u8],
    tokens: &[u8],
    readers: Readers,
    frame: Frame,
    table: &[u8],
    around: Around,
    place: Place,
    y: &mut [u8],
    u: &mut [u8],
    v: &mut [u8],
) -> MacroblockRead
    ensures { (macroblock_called result.outcome y.new u.new v.new
        ≡ macroblock_call_of first.now tokens.now readers frame table.now around place
        (planes_of y.old u.old v.old))
        × (result.reads ≡ decode_reads first.now tokens.now readers frame table.now around place
        (planes_of y.old u.old v.old)) }
{
    if !ready(first, tokens, readers, frame, table.len(), around) {
        return stopped(Unfinished::Refused, 0, 0);
    }
    if !laid(y.len(), u.len(), v.len(), place) {
        return stopped(Unfinished::Refused, 0, 0);
    }
    step(first, tokens, readers, frame, table, around, place, y, u, v)
}
