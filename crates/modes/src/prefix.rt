// What stands before a macroblock's modes (RFC 6386, section 19.3): its segment, its skip flag, whether its modes are small.
ghost use Rattle.std.specs.Prelude.{◌≡◌};
ghost use Rattle.header.specs.Frame.{Probabilities};
ghost use Rattle.reader.specs.Reading.{to_read, Valid, symbol};
ghost use Rattle.modes.specs.Modes.{segment, skip, prefix, prefix_answer, Told};

use crate::answers::Prefix;
use crate::large::{SEG_TREE, coded};
use header::entries::ENTRY_COUNT;
use header::frame::{Announced, announced_by};
use reader::boolean::{Counted, Read, Reader, Unread, valid};

// One symbol.
fn ask(s: &[u8], r: Reader, prob: u8) -> Counted<bool>
    requires { Valid s.now r }
    ensures { Told to_read 1 (symbol prob) s.now r result.answer result.reads }
{
    let Ok(read) = r.symbol(s, prob) else {
        return Counted {
            answer: Err(Unread::Missing),
            reads: 0,
        };
    };
    Counted {
        answer: Ok(read),
        reads: 1,
    }
}

// The segment where the frame has a map, else 0.
fn segment(s: &[u8], r: Reader, a: Announced) -> Counted<u8>
    requires valid { Valid s.now r }
    requires probabilities { Probabilities a }
    ensures { Told to_read 2 (segment a) s.now r result.answer result.reads }
{
    if !a.map {
        return Counted {
            answer: Ok((0, r)),
            reads: 0,
        };
    }
    let probs = a.map_probabilities;
    coded(s, r, &probs, &SEG_TREE)
}

// The skip flag where the frame has them, else false.
fn skip(s: &[u8], r: Reader, a: Announced) -> Counted<bool>
    requires valid { Valid s.now r }
    requires probabilities { Probabilities a }
    ensures { Told to_read 1 (skip a) s.now r result.answer result.reads }
{
    if a.skips {
        return ask(s, r, a.skip_probability);
    }
    Counted {
        answer: Ok((false, r)),
        reads: 0,
    }
}

// What is announced, then the symbol that tells small modes from a large one.
pub(crate) fn head(s: &[u8], r: Reader, a: Announced) -> Counted<Prefix>
    requires valid { Valid s.now r }
    requires probabilities { Probabilities a }
    ensures { Told to_read 4 (prefix a) s.now r result.answer result.reads }
{
    let c = segment(s, r, a);
    let Ok((segment, t)) = c.answer else {
        return Counted {
            answer: Err(Unread::Missing),
            reads: c.reads,
        };
    };
    let k = skip(s, t, a);
    let two = c.reads + k.reads;
    let Ok((skip, u)) = k.answer else {
        return Counted {
            answer: Err(Unread::Missing),
            reads: two,
        };
    };
    let l = ask(s, u, 145);
    let three = two + l.reads;
    let Ok((large, next)) = l.answer else {
        return Counted {
            answer: Err(Unread::Missing),
            reads: three,
        };
    };
    let p = Prefix {
        segment,
        skip,
        small: !large,
    };
    Counted {
        answer: Ok((p, next)),
        reads: three,
    }
}

// The prefix of a macroblock, by the header's entries.
pub fn prefix(s: &[u8], r: Reader, h: &[i32]) -> Read<Prefix>
    ensures { result ≡ prefix_answer s.now r h.now }
{
    if h.len() != ENTRY_COUNT {
        return Err(Unread::Refused);
    }
    if !valid(s, r) {
        return Err(Unread::Refused);
    }
    head(s, r, announced_by(h)).answer
}
