// quant_indices() (RFC 6386, sections 9.6 and 19.2).
ghost use Rattle.frame.specs.Header.{quantizers};
ghost use Rattle.reader.specs.Reads.{Reads};

use crate::fields::QuantIndices;
use crate::literal::{literal, signed};
use reader::boolean::Reader;

pub(crate) fn quantizers(s: &[u8], r: Reader) -> (QuantIndices, Reader)
    ensures { Reads quantizers s.now r result.0 result.1 }
{
    let (base, r1) = literal(s, r, 7);
    let (ydc, r2) = signed(s, r1, 4);
    let (y2dc, r3) = signed(s, r2, 4);
    let (y2ac, r4) = signed(s, r3, 4);
    let (uvdc, r5) = signed(s, r4, 4);
    let (uvac, r6) = signed(s, r5, 4);
    (
        QuantIndices {
            base,
            ydc,
            y2dc,
            y2ac,
            uvdc,
            uvac,
        },
        r6,
    )
}
