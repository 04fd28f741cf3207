// One macroblock from its modes alone (request M-108), for where tokens are lost: no residual, counted empty, and no flags left behind.
// Its modes are read as ever; the token partition's reader stays where it is.
#![tactic(auto)]

ghost use Rattle.std.specs.Prelude.{◌≡◌};
ghost use Rattle.macroblock.specs.Macroblock.{planes_of, macroblock_called, to_macroblock_called, Laid, Legible, FrameSizes, AroundSizes};
ghost use Rattle.macroblock.specs.Rebuilt.{legible_of, rebuilt_of, rebuild_call_of};

use header::frame::Frame;
use macroblock::arguments::{Around, Place, Readers};
use macroblock::checks::{around_fine, frame_fine, laid};
use macroblock::ending::{ModeData, Outcome, Residue, Unfinished, complete, nothing};
use modes::whole::read_modes;
use reader::boolean::{Reader, valid};

// Whether what is read, and what it is read by, lies in its range. It also says what the types do: how long the arrays are, and that a byte
// is one.
fn legible(first: &[u8], r: Reader, frame: Frame, around: Around) -> bool
    ensures { (result ≡ legible_of first.now r frame around) × (FrameSizes frame × AroundSizes around) }
{
    valid(first, r) & (around_fine(around) & frame_fine(frame))
}

// A macroblock of arguments in range.
fn from_modes(
    first: &[u8],
    readers: Readers,
    frame: Frame,
    around: Around,
    place: Place,
    y: &mut [u8],
    u: &mut [u8],
    v: &mut [u8],
) -> Outcome
    requires legible { Legible first.now readers.first frame around }
    requires laid { Laid place (planes_of y.old u.old v.old) }
    ensures { macroblock_called result y.new u.new v.new
        ≡ (let p = planes_of y.old u.old v.old in
        to_macroblock_called p (rebuilt_of first.now readers frame around place p)) }
{
    let mut modes = [0; 16];
    let r = readers.first;
    let top = around.top;
    let left = around.left;
    let top_modes = top.modes;
    let left_modes = left.modes;
    let read = read_modes(first, frame.announced, r, top_modes, left_modes, &mut modes);
    let Ok((kinds, next)) = read.answer else {
        return nothing(Err(Unfinished::NoModes));
    };
    let m = ModeData {
        kinds,
        modes,
        next,
        reads: read.reads,
    };
    let t = readers.token;
    let none = Residue {
        after: t,
        empty: true,
        top: [0; 9],
        left: [0; 9],
    };
    let c = [0i16; 384];
    complete(frame, place, m, none, &c, y, u, v)
}

// A macroblock from its modes, which are read from `first`. Where they run out, or an argument is out of range, the planes stay as they
// were.
pub fn rebuild(
    first: &[u8],
    readers: Readers,
    frame: Frame,
    around: Around,
    place: Place,
    y: &mut [u8],
    u: &mut [u8],
    v: &mut [u8],
) -> Outcome
    ensures { macroblock_called result y.new u.new v.new
        ≡ rebuild_call_of first.now readers frame around place
        (planes_of y.old u.old v.old) }
{
    let r = readers.first;
    if !legible(first, r, frame, around) {
        return nothing(Err(Unfinished::Refused));
    }
    if !laid(y.len(), u.len(), v.len(), place) {
        return nothing(Err(Unfinished::Refused));
    }
    from_modes(first, readers, frame, around, place, y, u, v)
}
