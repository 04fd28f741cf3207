// What is taken of a key frame: the coded header, read in the first partition, and behind it the token partitions.
ghost use Rattle.std.specs.Prelude.{◌≡◌};
ghost use Rattle.reader.specs.Reading.{first_reader, run};
ghost use Rattle.frame.specs.Header.{header};
ghost use Rattle.frame.specs.Fine.{FineTaken};
ghost use Rattle.frame.specs.Take.{refused_answer, nothing_taken, partitions_placed, coded_of};

use crate::coded::coded;
use crate::entries::entries;
use crate::fields::Header;
use crate::literal::nowhere;
use crate::places::{count, places};
use crate::tag::{height, rounded, size, width};
use reader::boolean::{Reader, open, valid};
use tile::{Span, Tile};

// A picture's true width and height, in pixels.
#[derive(Clone, Copy)]
pub struct ShownSize {
    pub width: usize,
    pub height: usize,
}

// 0 and what the picture call takes, or the number of a refusal and zeros. The tile's sides are rounded up to 16, `shown` has the true
// sizes; `simple` is the filter kind. Stays a record and no Result: the call for C stores the zeros after a refusal too.
#[derive(Clone, Copy)]
pub struct Answer {
    pub number: u32,
    pub tile: Tile,
    pub shown: ShownSize,
    pub simple: bool,
}

// The same with the header's entries.
#[derive(Clone, Copy)]
pub struct Taken {
    pub answer: Answer,
    pub header: [i32; 1096],
}

pub fn refused(number: u32) -> Answer
    ensures { result ≡ refused_answer number }
{
    Answer {
        number,
        tile: Tile {
            first: Span { start: 0, len: 0 },
            tokens: [Span { start: 0, len: 0 }; 8],
            reader: nowhere(),
            count: 0,
            width: 0,
            height: 0,
        },
        shown: ShownSize {
            width: 0,
            height: 0,
        },
        simple: false,
    }
}

pub fn nothing(number: u32) -> Taken
    ensures { result ≡ nothing_taken number }
{
    Taken {
        answer: refused(number),
        header: [0; 1096],
    }
}

// After the coded header: the token partitions.
fn placed(b: &[u8], h: Header, reader: Reader) -> Taken
    requires { FineTaken h }
    ensures { result ≡ partitions_placed b.now h reader }
{
    let size = size(b);
    let n = count(h.partitions);
    let found = places(b, 10 + size, n);
    if b.len() < found.last {
        return nothing(13);
    }
    let tokens = found.tokens;
    let across = width(b);
    let down = height(b);
    Taken {
        answer: Answer {
            number: 0,
            tile: Tile {
                first: Span {
                    start: 10,
                    len: size,
                },
                tokens,
                reader,
                count: n,
                width: rounded(across),
                height: rounded(down),
            },
            shown: ShownSize {
                width: across,
                height: down,
            },
            simple: h.filter.kind != 0,
        },
        header: entries(h),
    }
}

// In the first partition: the coded header.
pub fn read(b: &[u8], s: &[u8]) -> Taken
    ensures { result ≡ coded_of b.now (run header s.now (first_reader s.now)) }
{
    let (h, reader) = coded(s, open(s));
    if !valid(s, reader) {
        return nothing(14);
    }
    placed(b, h, reader)
}
