// A tile's tokens in one partition (M-112): a symbol read and written again (pipe), a token (token), the blocks of a macroblock (block), one
// macroblock in its place (turn), all of them in order (walk), what they make (tokens), and the call.
#![tactic(auto)]

pub mod block;
pub mod pipe;
mod token;
pub mod tokens;
pub mod turn;
mod walk;

ghost use Rattle.std.specs.Prelude.{◌≡◌, ◌≤◌, ◌<◌};
ghost use Rattle.lent.specs.Memory.{memory_of};
ghost use Rattle.choices.specs.Choices.{call_of};
ghost use Rattle.recode.specs.Recode.{recoded_refused, recode_of, one_tile_of, recode_ended};

use crate::tokens::recode_tokens;
use numbers::copy;
use picture::decode;
use reader::boolean::Reader;
use tile::partitions::part;
use tile::{Span, Tile};

// 0 and the tile that was written; or the number of a refusal, that of the picture call or 16 where the room is too small, and zeros.
#[derive(Clone, Copy)]
pub struct Recoded {
    pub number: u32,
    pub tile: Tile,
}

fn refused(number: u32) -> Recoded
    ensures { result ≡ recoded_refused number }
{
    Recoded {
        number,
        tile: Tile {
            first: Span { start: 0, len: 0 },
            tokens: [Span { start: 0, len: 0 }; 8],
            reader: Reader {
                at: 0,
                range: 0,
                shifts: 0,
                window: 0,
            },
            count: 0,
            width: 0,
            height: 0,
        },
    }
}

// A tile whose first partition is n bytes at the start of its bytes, and whose one token partition is the k bytes behind it.
fn one_tile(tile: Tile, n: usize, k: usize) -> Tile
    ensures { result ≡ one_tile_of tile n k }
{
    let mut tokens = [Span { start: 0, len: 0 }; 8];
    tokens[0] = Span { start: n, len: k };
    let reader = tile.reader;
    Tile {
        first: Span { start: 0, len: n },
        tokens,
        reader,
        count: 1,
        width: tile.width,
        height: tile.height,
    }
}

// The picture call, then its tile with one token partition, at the start of `out`; what lies behind it in `out` is left alone.
pub fn recode(
    bytes: &[u8],
    tile: Tile,
    header: &[i32],
    y: &mut [u8],
    u: &mut [u8],
    v: &mut [u8],
    columns: &mut [u8],
    modes: &mut [u8],
    strengths: &mut [u8],
    out: &mut [u8],
) -> Recoded
    ensures { recode_ended result
        (memory_of y.new u.new v.new columns.new modes.new strengths.new)
        out.new
        ≡ recode_of (call_of bytes.now tile header.now)
        (memory_of y.old u.old v.old
        columns.old modes.old strengths.old) out.old }
{
    let first = part(bytes, tile.first);
    let n = first.len();
    let at = n.min(out.len());
    let written = recode_tokens(
        bytes,
        tile,
        header,
        y,
        u,
        v,
        columns,
        modes,
        strengths,
        &mut out[at..],
    );
    if written.number != 0 {
        return refused(written.number);
    }
    copy(first, out);
    let after = one_tile(tile, n, written.len);
    Recoded {
        number: 0,
        tile: after,
    }
}
