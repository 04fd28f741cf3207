// The first partition whole, read and written again: its coded header with the partition count 0, then the modes of every macroblock.
ghost use Rattle.std.specs.Prelude.{◌≡◌, ◌<◌, ◌≤◌, replicate};
ghost use Rattle.recode_frame.specs.RecodeFrame.{left_of, modes_from, no_tops};
ghost use Rattle.recode_frame.specs.HeaderCopies.{Copied};
ghost use Rattle.recode_frame.specs.First.{HeaderRecounted, Sized, Rewrites};

use crate::after::{clear_count, copy_after};
use crate::before::copy_before;
use crate::mode::copy_modes;
use header::frame::{Announced, announced_by};
use modes::contexts::{bottom, right};
use reader::boolean::open;
use recode::pipe::Pipe;
use tile::Tile;
use wide::wide::widen;
use writer::Writer;

// The coded header.
fn copy_header(s: &[u8], p: Pipe, out: &mut [u8]) -> Pipe
    ensures { HeaderRecounted s.now p out.old result out.new }
{
    let before = copy_before(s, p, out);
    let count = clear_count(s, before, out);
    copy_after(s, count, out)
}

// Left of the first column there is nothing.
fn beside(column: usize, left: [u8; 4]) -> [u8; 4]
    ensures { result ≡ left_of column left }
{
    if column == 0 {
        return [0u8; 4];
    }
    left
}

// The modes of all macroblocks in raster order, `blocks` of them, `wide` in a row: at most 1024.
fn copy_all(s: &[u8], p: Pipe, out: &mut [u8], a: Announced, wide: usize, blocks: usize) -> Pipe
    requires { (0 < wide) × (wide ≤ 1024) }
    ensures { Copied (modes_from a wide blocks 0 no_tops (replicate 4 0)) s.now p out.old result out.new }
{
    let mut tops = [[0u8; 4]; 1024];
    let mut left = [0u8; 4];
    let mut next = p;
    for k in 0..blocks {
        let column = k % wide;
        let top = tops[column];
        let aside = beside(column, left);
        let m = copy_modes(s, next, out, a, &top, &aside);
        let modes = m.modes;
        tops[column] = bottom(&modes);
        left = right(&modes);
        next = m.next;
    }
    next
}

// All of it into the room; what lies past its end only counts. How many bytes there are.
pub(crate) fn rewrite(s: &[u8], tile: Tile, header: &[i32], out: &mut [u8]) -> usize
    requires { Sized tile }
    ensures { Rewrites s.now tile header.now out.old result out.new }
{
    let start = Pipe {
        reader: widen(open(s)),
        writer: Writer::fresh(),
    };
    let wide = tile.width / 16;
    let blocks = wide * (tile.height / 16);
    let headed = copy_header(s, start, out);
    let end = copy_all(s, headed, out, announced_by(header), wide, blocks);
    let w = end.writer;
    w.flush(out)
}
