// A key frame written again with one token partition: literals (bits), the coded header before the partition count (before) and behind it
// (after), trees of symbols (tree), the modes of a macroblock (mode), the first partition whole (first), and the call.
#![tactic(auto)]

mod after;
mod before;
mod bits;
mod first;
mod mode;
mod tree;

ghost use Rattle.std.specs.Prelude.{◌≡◌, ◌++◌, ◌+◌, ◌*◌, ◌%◌, ◌≤◌, length, drop};
ghost use Rattle.lent.specs.Memory.{memory_of};
ghost use Rattle.frame.specs.Tag.{tag_of};
ghost use Rattle.recode_frame.specs.RecodeFrame.{three_bytes, no_frame, frame_ended, frame_decoded, recode_frame_of};
ghost use Rattle.recode_frame.specs.First.{Sized, IsTaken, Measured, Placed, Numbered, Lays};

use crate::first::rewrite;
use numbers::copy;
use recode::tokens::recode_tokens;
use take::take;
use tile::partitions::part;
use tile::{Span, Tile};

// 0 and how many bytes were written; or the number of a refusal, and 0.
#[derive(Clone, Copy)]
pub struct FrameRecoded {
    pub number: u32,
    pub len: usize,
}

// The most bytes that the tag can say of the first partition: 19 bits.
const LARGEST: usize = 524287;

fn refused(number: u32) -> FrameRecoded
    ensures { result ≡ no_frame number }
{
    FrameRecoded { number, len: 0 }
}

// How many bytes the new first partition has.
fn measure(bytes: &[u8], tile: Tile, header: &[i32]) -> usize
    requires { Sized tile }
    ensures { Measured bytes.now tile header.now result }
{
    let mut none = [0u8; 1];
    rewrite(part(bytes, tile.first), tile, header, &mut none[..])
}

// Where the tokens stand behind n bytes of first partition; at the end of the room, where nothing fits, if these bytes do not fit or are too
// many for the tag.
fn place(n: usize, room: usize) -> usize
    ensures { Placed n room result }
{
    if LARGEST < n {
        return room;
    }
    if room < 10 + n {
        return room;
    }
    10 + n
}

// The picture call's number; for tokens that did not fit, 18 where the first partition is too long for the tag, else 16.
fn number_of(number: u32, n: usize) -> u32
    ensures { Numbered number n result }
{
    if number != 16 {
        return number;
    }
    if n <= LARGEST {
        return 16;
    }
    18
}

// The frame tag of a frame whose first partition has n bytes: its low five bits are as they were.
fn put_tag(bytes: &[u8], n: usize, out: &mut [u8])
    requires { (3 ≤ length bytes.now) × (3 ≤ length out.old) }
    ensures { out.new ≡ three_bytes (tag_of bytes.now % 32 + 32 * n) ++ drop 3 out.old }
{
    out[0] = bytes[0] % 32 + (n % 8 * 32) as u8;
    out[1] = (n / 8 % 256) as u8;
    out[2] = (n / 2048 % 256) as u8;
}

// What stands before the tokens: the tag, start code and sizes, and the first partition of n bytes.
fn lay(bytes: &[u8], tile: Tile, header: &[i32], out: &mut [u8], n: usize)
    requires { Sized tile × (10 ≤ length bytes.now) × (10 + n ≤ length out.old) }
    ensures { Lays bytes.now tile header.now out.old n out.new }
{
    let head = part(bytes, Span { start: 0, len: 10 });
    copy(head, &mut out[..]);
    put_tag(bytes, n, &mut out[..]);
    let end = 10 + n;
    rewrite(part(bytes, tile.first), tile, header, &mut out[10..end]);
}

// A frame whose header was taken. The tokens are written first, since they can be refused.
fn recode_taken(
    bytes: &[u8],
    tile: Tile,
    header: &[i32],
    y: &mut [u8],
    u: &mut [u8],
    v: &mut [u8],
    columns: &mut [u8],
    modes: &mut [u8],
    strengths: &mut [u8],
    out: &mut [u8],
) -> FrameRecoded
    requires { IsTaken bytes.now tile header.now }
    ensures { frame_ended result
        (memory_of y.new u.new v.new columns.new modes.new strengths.new)
        out.new
        ≡ frame_decoded bytes.now
        (memory_of y.old u.old v.old
        columns.old modes.old strengths.old) out.old }
{
    let n = measure(bytes, tile, header);
    let at = place(n, out.len());
    let written = recode_tokens(
        bytes,
        tile,
        header,
        &mut y[..],
        &mut u[..],
        &mut v[..],
        &mut columns[..],
        &mut modes[..],
        &mut strengths[..],
        &mut out[at..],
    );
    if written.number != 0 {
        return refused(number_of(written.number, n));
    }
    lay(bytes, tile, header, &mut out[..], n);
    FrameRecoded {
        number: 0,
        len: at + written.len,
    }
}

// THE call: the frame with one token partition at the start of `out`; what lies behind it is left alone.
pub fn recode_frame(
    bytes: &[u8],
    y: &mut [u8],
    u: &mut [u8],
    v: &mut [u8],
    columns: &mut [u8],
    modes: &mut [u8],
    strengths: &mut [u8],
    out: &mut [u8],
) -> FrameRecoded
    ensures { frame_ended result
        (memory_of y.new u.new v.new columns.new modes.new strengths.new)
        out.new
        ≡ recode_frame_of bytes.now
        (memory_of y.old u.old v.old
        columns.old modes.old strengths.old) out.old }
{
    let t = take(bytes);
    let taken = t.answer;
    let tile = taken.tile;
    let header = t.header;
    if taken.number != 0 {
        return refused(taken.number);
    }
    recode_taken(
        bytes, tile, &header, y, u, v, columns, modes, strengths, out,
    )
}
