// The coded header whole (RFC 6386, section 19.2).
ghost use Rattle.frame.specs.Header.{when, literal, header};
ghost use Rattle.reader.specs.Reads.{Reads};

use crate::fields::Header;
use crate::filter::filter;
use crate::literal::literal;
use crate::probs::probs;
use crate::quantizers::quantizers;
use crate::segments::segments;
use reader::boolean::Reader;

fn chance_when(s: &[u8], r: Reader, flag: u32) -> (u32, Reader)
    ensures { Reads (when flag 0 (literal 8)) s.now r result.0 result.1 }
{
    if flag == 0 { (0, r) } else { literal(s, r, 8) }
}

pub(crate) fn coded(s: &[u8], r: Reader) -> (Header, Reader)
    ensures { Reads header s.now r result.0 result.1 }
{
    let (colour, r1) = literal(s, r, 1);
    let (clamping, r2) = literal(s, r1, 1);
    let (segments, r3) = segments(s, r2);
    let (filter, r4) = filter(s, r3);
    let (partitions, r5) = literal(s, r4, 2);
    let (quantizers, r6) = quantizers(s, r5);
    let (refresh, r7) = literal(s, r6, 1);
    let (probs, r8) = probs(s, r7);
    let (skip, r9) = literal(s, r8, 1);
    let (chance, next) = chance_when(s, r9, skip);
    (
        Header {
            colour,
            clamping,
            segments,
            filter,
            partitions,
            quantizers,
            refresh,
            probs,
            skip,
            chance,
        },
        next,
    )
}
