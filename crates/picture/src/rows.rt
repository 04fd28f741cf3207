// The macroblocks of a picture in raster order (the source's vp8_image), until one is refused.
ghost use Rattle.std.specs.Prelude.{◌≡◌};
ghost use Rattle.tile.specs.Tile.{blocks_of};
ghost use Rattle.lent.specs.Memory.{memory_of, packed};
ghost use Rattle.picture.specs.Picture.{cut_out, start_of, plus, reads_from, Shared, Live};
ghost use Rattle.picture.specs.Halt.{halted_at, halt_of};
ghost use Rattle.macroblock.specs.Macroblock.{AtMost};

use crate::turn::{task_of, turn};
use choices::answer::{Decoded, stopped};
use header::frame::Frame;
use macroblock::arguments::{Readers, SymbolCounts};
use modes::contexts::Context;
use reader::boolean::Reader;
use tile::Tile;
use tile::partitions::{openers, part, pick, token};

// How it ended, and how many symbols were read.
#[derive(Clone, Copy)]
pub struct PictureRead {
    pub answer: Decoded,
    pub reads: SymbolCounts,
}

// The same, with what the macroblock found that it stopped at: the reader of the first partition, those of the token partitions, and what
// lies to the left.
#[derive(Clone, Copy)]
pub struct PictureStop {
    pub answer: Decoded,
    pub reads: SymbolCounts,
    pub reader: Reader,
    pub readers: [Reader; 8],
    pub left: Context,
}

// Two counts of a picture of at most 1024 by 1024 macroblocks.
fn plus(a: SymbolCounts, b: SymbolCounts) -> SymbolCounts
    requires { AtMost 1048576 (plus a b) }
    ensures { result ≡ plus a b }
{
    SymbolCounts {
        first: a.first + b.first,
        tokens: a.tokens + b.tokens,
    }
}

// How a picture ended, of its parts.
fn stop(
    answer: Decoded,
    reads: SymbolCounts,
    reader: Reader,
    readers: [Reader; 8],
    left: Context,
) -> PictureStop
    ensures { result ≡ record { answer = answer; reads = reads; reader = reader; readers = readers; left = left } }
{
    PictureStop {
        answer,
        reads,
        reader,
        readers,
        left,
    }
}

// Row y reads token partition y mod count; the first refusal ends the picture. What a refused macroblock read counts too.
pub(crate) fn rows(
    bytes: &[u8],
    tile: Tile,
    frame: Frame,
    table: &[u8],
    y: &mut [u8],
    u: &mut [u8],
    v: &mut [u8],
    columns: &mut [u8],
    modes: &mut [u8],
    strengths: &mut [u8],
) -> PictureStop
    requires shared { Shared (cut_out packed bytes.now tile frame table.now) }
    requires live { Live (cut_out packed bytes.now tile frame table.now)
        (start_of bytes.now tile (memory_of y.old u.old v.old columns.old modes.old strengths.old)) }
    ensures { (halted_at result.answer result.reader result.readers result.left
        (memory_of y.new u.new v.new columns.new modes.new strengths.new)
        ≡ halt_of (blocks_of tile.width tile.height)
        (cut_out packed bytes.now tile frame table.now) 0
        (start_of bytes.now tile
        (memory_of y.old u.old v.old
        columns.old modes.old strengths.old)))
        × (result.reads ≡ reads_from (blocks_of tile.width tile.height)
        (cut_out packed bytes.now tile frame table.now) 0
        (start_of bytes.now tile
        (memory_of y.old u.old v.old
        columns.old modes.old strengths.old))) }
{
    let wide = tile.width / 16;
    let blocks = wide * (tile.height / 16);
    let first = part(bytes, tile.first);
    let mut r = tile.reader;
    let mut readers = openers(bytes, tile);
    let mut left = Context::empty();
    let mut reads = SymbolCounts {
        first: 0,
        tokens: 0,
    };
    for k in 0..blocks {
        let p = pick(k / wide, tile.count);
        let tokens = token(bytes, tile, p);
        let t = readers[p];
        let m = turn(
            first,
            tokens,
            table,
            task_of(Readers { first: r, token: t }, frame, left, wide, k),
            &mut y[..],
            &mut u[..],
            &mut v[..],
            &mut columns[..],
            &mut modes[..],
            &mut strengths[..],
        );
        let finish = m.answer;
        reads = plus(reads, m.reads);
        let Ok(after) = finish else {
            return stop(stopped(finish, k), reads, r, readers, left);
        };
        let token = after.token;
        r = after.first;
        readers[p] = token;
        left = m.left;
    }
    stop(Ok(blocks), reads, r, readers, left)
}
