// The end of a macroblock whose modes and residual are read: its three squares, its strengths and the contexts that it leaves.
ghost use Rattle.std.specs.Prelude.{◌≡◌, not, ◌||◌};
ghost use Rattle.header.specs.Frame.{level_at};
ghost use Rattle.filter.specs.Strengths.{strength_answer, strengths_values_of};
ghost use Rattle.modes.specs.Modes.{macroblock_of, bottom_of, right_of};
ghost use Rattle.transform.specs.Lanes.{macroblock_blocks};
ghost use Rattle.macroblock.specs.Macroblock.{planes_of, macroblock_called, no_outcome, end_outcome, macroblock_ended};

use crate::arguments::{Place, Readers};
use crate::squares::squares;
use filter::strengths::{Strength, at_level};
use header::frame::Frame;
use modes::answers::Kinds;
use modes::contexts::{Context, bottom, right};
use reader::boolean::Reader;

// Why a macroblock is not finished: its modes (6) or its tokens (7) ran out; or an argument was refused (9).
#[derive(Clone, Copy, Debug, PartialEq, Eq)]
pub enum Unfinished {
    NoModes,
    NoTokens,
    Refused,
}

// What a macroblock gives beside its samples: the readers after it, its modes, its strengths, what it leaves to the macroblock below it
// and to the one right of it. Zeros where it is not finished.
#[derive(Clone, Copy)]
pub struct Outcome {
    pub answer: Result<Readers, Unfinished>,
    pub kinds: Kinds,
    pub modes: [u8; 16],
    pub strength: Strength,
    pub top: Context,
    pub left: Context,
}

// The modes of a macroblock, the reader after them, and how many symbols they took.
#[derive(Clone, Copy)]
pub struct ModeData {
    pub kinds: Kinds,
    pub modes: [u8; 16],
    pub next: Reader,
    pub reads: u64,
}

// What its residual leaves beside the coefficients: the reader behind it, whether nothing was coded, and the flags.
#[derive(Clone, Copy)]
pub struct Residue {
    pub after: Reader,
    pub empty: bool,
    pub top: [u8; 9],
    pub left: [u8; 9],
}

// What is not finished.
pub fn nothing(answer: Result<Readers, Unfinished>) -> Outcome
    ensures { result ≡ no_outcome answer }
{
    Outcome {
        answer,
        kinds: Kinds {
            segment: 0,
            skip: false,
            small: false,
            chroma: 0,
        },
        modes: [0; 16],
        strength: Strength {
            limit: 0,
            inner: 0,
            threshold: 0,
            inside: 0,
        },
        top: Context::empty(),
        left: Context::empty(),
    }
}

// 0 where there is no such segment.
fn level_of(frame: Frame, small: bool, segment: usize) -> u8
    ensures { result ≡ level_at frame small segment }
{
    if 4 <= segment {
        return 0;
    }
    if small {
        let levels = frame.small;
        return levels[segment];
    }
    let levels = frame.large;
    levels[segment]
}

// Zeros at a level above 63.
fn strength_at(level: u8, sharp: u8, inside: bool) -> Strength
    ensures { result ≡ strengths_values_of (strength_answer level sharp inside) }
{
    at_level(level, sharp, inside).unwrap_or(Strength {
        limit: 0,
        inner: 0,
        threshold: 0,
        inside: 0,
    })
}

// The inner edges are filtered where the modes are small or something was coded.
fn strength_of(frame: Frame, kinds: Kinds, empty: bool) -> Strength
    ensures { result
        ≡ strengths_values_of (strength_answer (level_at frame kinds.small kinds.segment) frame.sharp (kinds.small || not empty)) }
{
    let l = level_of(frame, kinds.small, usize::from(kinds.segment));
    strength_at(l, frame.sharp, kinds.small | !empty)
}

// `below` and `beside` are the last row and column of the modes, taken by the caller: an array that is lent once more here would be copied
// byte by byte.
fn told(frame: Frame, m: ModeData, residue: Residue, below: [u8; 4], beside: [u8; 4]) -> Outcome
    requires { (below ≡ bottom_of m.modes) × (beside ≡ right_of m.modes) }
    ensures { result ≡ end_outcome frame (macroblock_of m.kinds m.modes) m.next residue }
{
    let kinds = m.kinds;
    let modes = m.modes;
    let next = m.next;
    let after = residue.after;
    let top = residue.top;
    let left = residue.left;
    Outcome {
        answer: Ok(Readers {
            first: next,
            token: after,
        }),
        kinds,
        modes,
        strength: strength_of(frame, kinds, residue.empty),
        top: Context {
            modes: below,
            flags: top,
        },
        left: Context {
            modes: beside,
            flags: left,
        },
    }
}

// The end of a macroblock with these modes, this residual and these coefficients, by lanes. A square that cannot be painted stays as it
// was; strengths of a level out of range are zeros.
pub fn complete(
    frame: Frame,
    place: Place,
    m: ModeData,
    residue: Residue,
    c: &[i16; 384],
    y: &mut [u8],
    u: &mut [u8],
    v: &mut [u8],
) -> Outcome
    ensures { macroblock_called result y.new u.new v.new
        ≡ macroblock_ended frame place (macroblock_of m.kinds m.modes) m.next residue (macroblock_blocks c.now)
        (planes_of y.old u.old v.old) }
{
    let kinds = m.kinds;
    let modes = m.modes;
    squares(&mut y[..], &mut u[..], &mut v[..], place, kinds, &modes, c);
    told(frame, m, residue, bottom(&modes), right(&modes))
}
