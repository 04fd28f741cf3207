// filter_type, loop_filter_level, sharpness_level and mb_lf_adjustments() (RFC 6386, sections 9.4 and 19.2).
ghost use Rattle.std.specs.Prelude.{◌≡◌};
ghost use Rattle.frame.specs.Header.{when, no_deltas_of, deltas, deltas_update_of, filter};
ghost use Rattle.reader.specs.Reads.{Reads};

use crate::fields::{CodedNumber, Deltas, Filter};
use crate::literal::{four, literal};
use reader::boolean::Reader;

fn no_deltas() -> Deltas
    ensures { result ≡ no_deltas_of }
{
    let none = CodedNumber { sign: 0, size: 0 };
    Deltas {
        intra: none,
        small: none,
    }
}

fn deltas(s: &[u8], r: Reader) -> (Deltas, Reader)
    ensures { Reads deltas s.now r result.0 result.1 }
{
    let (frames, r1) = four(s, r, 6);
    let (modes, r2) = four(s, r1, 6);
    (
        Deltas {
            intra: frames.a,
            small: modes.a,
        },
        r2,
    )
}

fn deltas_update(s: &[u8], r: Reader) -> (Deltas, Reader)
    ensures { Reads deltas_update_of s.now r result.0 result.1 }
{
    let (update, next) = literal(s, r, 1);
    if update == 0 {
        return (no_deltas(), next);
    }
    deltas(s, next)
}

fn deltas_when(s: &[u8], r: Reader, flag: u32) -> (Deltas, Reader)
    ensures { Reads (when flag no_deltas_of deltas_update_of) s.now r result.0 result.1 }
{
    if flag == 0 {
        return (no_deltas(), r);
    }
    deltas_update(s, r)
}

pub(crate) fn filter(s: &[u8], r: Reader) -> (Filter, Reader)
    ensures { Reads filter s.now r result.0 result.1 }
{
    let (kind, r1) = literal(s, r, 1);
    let (level, r2) = literal(s, r1, 6);
    let (sharpness, r3) = literal(s, r2, 3);
    let (on, r4) = literal(s, r3, 1);
    let (deltas, r5) = deltas_when(s, r4, on);
    (
        Filter {
            kind,
            level,
            sharpness,
            on,
            deltas,
        },
        r5,
    )
}
