// All the modes of a macroblock, in the order of RFC 6386, section 19.3.
ghost use Rattle.std.specs.Prelude.{◌≡◌};
ghost use Rattle.header.specs.Frame.{Probabilities};
ghost use Rattle.reader.specs.Reading.{Valid, to_read};
ghost use Rattle.modes.specs.Modes.{Modes, luma, modes_of, to_staged, modes_answer, Told, modes_reads};

use crate::answers::Kinds;
use crate::counts::modes_read;
use crate::large::large_mode;
use crate::prefix::head;
use crate::quick::quick;
use crate::small::{contexts_fine, sixteen};
use header::frame::Announced;
use reader::boolean::{Counted, Reader, Unread, valid};
use wide::wide::{inside, narrow, widen};

// The sixteen luma modes: small ones, or a large one sixteen times.
fn luma(s: &[u8], r: Reader, small: bool, top: &[u8; 4], left: &[u8; 4]) -> Counted<[u8; 16]>
    requires valid { Valid s.now r }
    requires modes { Modes top.now × Modes left.now }
    ensures { Told to_read 112 (luma small top.now left.now) s.now r result.answer result.reads }
{
    if small {
        return sixteen(s, r, top, left);
    }
    let c = large_mode(s, r, false);
    let reads = c.reads;
    let Ok((m, next)) = c.answer else {
        return Counted {
            answer: Err(Unread::Missing),
            reads,
        };
    };
    Counted {
        answer: Ok(([m; 16], next)),
        reads,
    }
}

// Prefix, luma, chroma, symbol by symbol. `modes` keeps what it held unless all are read.
fn stage(
    s: &[u8],
    a: Announced,
    r: Reader,
    top: &[u8; 4],
    left: &[u8; 4],
    modes: &mut [u8; 16],
) -> Counted<Kinds>
    requires valid { Valid s.now r }
    requires modes { Modes top.now × Modes left.now }
    requires probabilities { Probabilities a }
    ensures { Told (to_staged modes.old) 119 (modes_of a top.now left.now) s.now r
        (record { answer = result.answer; modes = modes.new }) result.reads }
{
    let h = head(s, r, a);
    let Ok((p, t)) = h.answer else {
        return Counted {
            answer: Err(Unread::Missing),
            reads: h.reads,
        };
    };
    let l = luma(s, t, p.small, top, left);
    let two = h.reads + l.reads;
    let Ok(found) = l.answer else {
        return Counted {
            answer: Err(Unread::Missing),
            reads: two,
        };
    };
    let (read, u) = found;
    let c = large_mode(s, u, true);
    let three = two + c.reads;
    let Ok((chroma, next)) = c.answer else {
        return Counted {
            answer: Err(Unread::Missing),
            reads: three,
        };
    };
    *modes = read;
    let kinds = Kinds {
        segment: p.segment,
        skip: p.skip,
        small: p.small,
        chroma,
    };
    Counted {
        answer: Ok((kinds, next)),
        reads: three,
    }
}

// The modes of a macroblock, its sixteen luma modes into `modes`, which keeps what it held unless all are read; and how many symbols
// were read. Over a wide reader; once more, symbol by symbol, where that passed the partition's end.
pub fn read_modes(
    s: &[u8],
    a: Announced,
    r: Reader,
    top: [u8; 4],
    left: [u8; 4],
    modes: &mut [u8; 16],
) -> Counted<Kinds>
    ensures { (record { answer = result.answer; modes = modes.new }
        ≡ modes_answer s.now a r top left modes.old)
        × (result.reads ≡ modes_reads s.now a r top left) }
{
    if !valid(s, r) {
        return Counted {
            answer: Err(Unread::Refused),
            reads: 0,
        };
    }
    if !contexts_fine(&top, &left) {
        return Counted {
            answer: Err(Unread::Refused),
            reads: 0,
        };
    }
    let (kinds, read, w) = quick(s, a, widen(r), &top, &left);
    if !inside(s, w) {
        return stage(s, a, r, &top, &left, modes);
    }
    *modes = read;
    let reads = modes_read(a, kinds, modes);
    Counted {
        answer: Ok((kinds, narrow(s, w))),
        reads,
    }
}
