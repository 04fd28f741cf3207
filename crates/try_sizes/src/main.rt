// The limits of a picture's size and of the count of token partitions, run through the picture call: for each width, height and
// count the number and the macroblocks finished. Case files end at sides of 64, so these tiles are made here: every partition is
// the same 65536 zero bytes, and the header is 0 but for 128 in 38..1093.
#![tactic(auto)]

ghost use Rattle.std.specs.Prelude.{◌≡◌, length};

use choices::answer::{finished, number};
use picture::decode;
use reader::boolean::open;
use std::io;
use tile::{Span, Tile};

fn header() -> [i32; 1096]
    ensures { 1096 ≡ length result }
{
    let mut h = [0; 1096];
    h[38..1094].fill(128);
    h
}

fn zeros() -> [u8; 65536]
    ensures { 65536 ≡ length result }
{
    [0; 65536]
}

// The lent memory of 1024 macroblocks in one row.
fn luma() -> [u8; 262144]
    ensures { 262144 ≡ length result }
{
    [0; 262144]
}

fn columns() -> [u8; 4096]
    ensures { 4096 ≡ length result }
{
    [0; 4096]
}

fn modes() -> [u8; 20480]
    ensures { 20480 ≡ length result }
{
    [0; 20480]
}

fn strengths() -> [u8; 6144]
    ensures { 6144 ≡ length result }
{
    [0; 6144]
}

fn decoded(rt: &impl Print, width: usize, height: usize, count: usize) -> io::Result<()> {
    let bytes = zeros();
    let h = header();
    let all = Span {
        start: 0,
        len: 65536,
    };
    let given = Tile {
        first: all,
        tokens: [all; 8],
        reader: open(&bytes),
        count,
        width,
        height,
    };
    let mut y = luma();
    let mut u = zeros();
    let mut v = zeros();
    let mut c = columns();
    let mut m = modes();
    let mut s = strengths();
    let d = decode(
        &bytes, given, &h, &mut y, &mut u, &mut v, &mut c, &mut m, &mut s,
    );
    print!(rt; " {} {}", number(d.answer), finished(d.answer))
}

fn row(rt: &impl Print, width: usize, height: usize, count: usize) -> io::Result<()> {
    print!(rt; "{width} {height} {count}:")?;
    decoded(rt, width, height, count)?;
    print!(rt; "\n")
}

// 16 by 16 passes checks 1 and 2, and is refused by 4 alone: the memory lent is that of 16384 by 16.
fn main(rt: HostRuntime) -> io::Result<()> {
    row(&rt, 16384, 16, 1)?;
    row(&rt, 16384, 16, 8)?;
    row(&rt, 16, 16, 1)?;
    row(&rt, 0, 16, 1)?;
    row(&rt, 17, 16, 1)?;
    row(&rt, 16400, 16, 1)?;
    row(&rt, 16384, 17, 1)?;
    row(&rt, 16384, 16, 0)?;
    row(&rt, 16384, 16, 9)?;
    row(&rt, 17, 16, 9)
}
