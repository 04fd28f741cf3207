// Literals (RFC 6386, section 8): L(n), and a number with its sign where a flag says that it is given.
ghost use Rattle.std.specs.Prelude.{◌≡◌, ◌≤◌};
ghost use Rattle.reader.specs.Reading.{no_reader_of};
ghost use Rattle.frame.specs.Header.{literal, signed, four_signed};
ghost use Rattle.reader.specs.Reads.{Reads};

use crate::fields::{CodedNumber, Four};
use reader::boolean::Reader;
use reader::extra::extra_bits;

// No reader: what stands for a byte that was missing.
pub(crate) fn nowhere() -> Reader
    ensures { result ≡ no_reader_of }
{
    Reader {
        at: 0,
        range: 0,
        shifts: 0,
        window: 0,
    }
}

// L(n), for n up to 8.
pub(crate) fn literal(s: &[u8], r: Reader, n: usize) -> (u32, Reader)
    requires { n ≤ 8 }
    ensures { Reads (literal n) s.now r result.0 result.1 }
{
    let halves = [128u8; 8];
    let Ok((value, next)) = extra_bits(s, r, &halves[..n]).answer else {
        return (0, nowhere());
    };
    (value, next)
}

// A flag; where it is set, n bits and a sign.
pub(crate) fn signed(s: &[u8], r: Reader, n: usize) -> (CodedNumber, Reader)
    requires { n ≤ 8 }
    ensures { Reads (signed n) s.now r result.0 result.1 }
{
    let (given, r1) = literal(s, r, 1);
    if given == 0 {
        return (CodedNumber { sign: 0, size: 0 }, r1);
    }
    let (size, r2) = literal(s, r1, n);
    let (sign, r3) = literal(s, r2, 1);
    (CodedNumber { sign, size }, r3)
}

// Four of them.
pub(crate) fn four(s: &[u8], r: Reader, n: usize) -> (Four, Reader)
    requires { n ≤ 8 }
    ensures { Reads (four_signed n) s.now r result.0 result.1 }
{
    let (a, r1) = signed(s, r, n);
    let (b, r2) = signed(s, r1, n);
    let (c, r3) = signed(s, r2, n);
    let (d, r4) = signed(s, r3, n);
    (Four { a, b, c, d }, r4)
}
