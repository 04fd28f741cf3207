// A case file run through the picture call, over memory whose every byte was 165.
ghost use Rattle.std.specs.Prelude.{◌≡◌, ◌*◌, ◌≤◌, length, replicate};
ghost use Rattle.lent.specs.Memory.{memory_of};
ghost use Rattle.picture.specs.Picture.{ended_of, picture_of};
ghost use Rattle.casefile.specs.CaseFile.{case_width, case_height, given_of, Formed};
ghost use Rattle.casefile.specs.Run.{lent_of, sum_after_of, report_of, malformed_ran, ran_of};

use crate::layout::{header, height, tile_of, well_formed, width};
use crate::measures::{hash, sum};
use choices::answer::{Decoded, finished, number};
use lent::columns::COLUMN_WIDTH;
use lent::macroblocks::{MODE_WIDTH, STRENGTH_WIDTH};
use picture::decode;

#[derive(Clone, Copy)]
pub struct Sums {
    pub y: u32,
    pub u: u32,
    pub v: u32,
}

#[derive(Clone, Copy)]
pub struct Hashes {
    pub y: u64,
    pub u: u64,
    pub v: u64,
    pub columns: u64,
    pub modes: u64,
    pub strengths: u64,
}

// The answer of the picture call by number, 10 for a malformed file; the macroblocks finished; the sums of the planes, 0 after 1
// to 5; the hashes of the six memories after the call.
#[derive(Clone, Copy)]
pub struct Ran {
    pub number: u32,
    pub k: usize,
    pub sums: Sums,
    pub hashes: Hashes,
}

fn malformed() -> Ran
    ensures { result ≡ malformed_ran }
{
    Ran {
        number: 10,
        k: 0,
        sums: Sums { y: 0, u: 0, v: 0 },
        hashes: Hashes {
            y: 0,
            u: 0,
            v: 0,
            columns: 0,
            modes: 0,
            strengths: 0,
        },
    }
}

fn sum_after(number: u32, mem: &[u8]) -> u32
    requires { length mem.now ≤ 4096 }
    ensures { result ≡ sum_after_of number mem.now }
{
    if (1 <= number) & (number <= 5) {
        return 0;
    }
    sum(mem)
}

fn report(
    d: Decoded,
    y: &[u8],
    u: &[u8],
    v: &[u8],
    columns: &[u8],
    modes: &[u8],
    strengths: &[u8],
) -> Ran
    requires { (length y.now ≤ 4096) × (length u.now ≤ 4096) × (length v.now ≤ 4096) }
    ensures { result ≡ report_of (ended_of d
        (memory_of y.now u.now v.now
        columns.now modes.now strengths.now)) }
{
    let number = number(d);
    Ran {
        number,
        k: finished(d),
        sums: Sums {
            y: sum_after(number, y),
            u: sum_after(number, u),
            v: sum_after(number, v),
        },
        hashes: Hashes {
            y: hash(y),
            u: hash(u),
            v: hash(v),
            columns: hash(columns),
            modes: hash(modes),
            strengths: hash(strengths),
        },
    }
}

// The picture call on a well-formed file.
fn through(
    file: &[u8],
    y: &mut [u8],
    u: &mut [u8],
    v: &mut [u8],
    columns: &mut [u8],
    modes: &mut [u8],
    strengths: &mut [u8],
) -> Decoded
    requires { Formed file.now }
    ensures { ended_of result
        (memory_of y.new u.new v.new
        columns.new modes.new strengths.new)
        ≡ picture_of (given_of file.now)
        (memory_of y.old u.old v.old
        columns.old modes.old strengths.old) }
{
    let h = header(file);
    let d = decode(file, tile_of(file), &h, y, u, v, columns, modes, strengths);
    d.answer
}

// The picture call and what is told of it.
fn told(
    file: &[u8],
    y: &mut [u8],
    u: &mut [u8],
    v: &mut [u8],
    columns: &mut [u8],
    modes: &mut [u8],
    strengths: &mut [u8],
) -> Ran
    requires formed { Formed file.now }
    requires y_len_bound { (length y.old ≤ 4096) × (length u.old ≤ 4096) × (length v.old ≤ 4096) }
    ensures { result ≡ report_of (picture_of (given_of file.now)
        (memory_of y.old u.old v.old
        columns.old modes.old strengths.old)) }
{
    let d = through(
        file,
        &mut y[..],
        &mut u[..],
        &mut v[..],
        &mut columns[..],
        &mut modes[..],
        &mut strengths[..],
    );
    report(d, y, u, v, columns, modes, strengths)
}

fn luma() -> [u8; 4096]
    ensures { result ≡ replicate 4096 165 }
{
    [165; 4096]
}

fn chroma() -> [u8; 1024]
    ensures { result ≡ replicate 1024 165 }
{
    [165; 1024]
}

// Memory for the columns, the modes and the strengths of four by four macroblocks.
fn records() -> [u8; 320]
    ensures { result ≡ replicate 320 165 }
{
    [165; 320]
}

// Where no side is over `top`.
fn area(w: usize, h: usize, top: usize) -> usize
    requires { (w ≤ top) × (h ≤ top) × (top ≤ 64) }
    ensures { (result ≡ w * h) × (result ≤ top * top) }
{
    w * h
}

// The same over memory of the lengths that a size asks.
fn lent(file: &[u8], w: usize, h: usize) -> Ran
    requires formed { Formed file.now }
    requires w_value { (w ≡ case_width file.now) × (h ≡ case_height file.now) }
    ensures { result ≡ report_of (picture_of (given_of file.now) (lent_of w h)) }
{
    let large = area(w, h, 64);
    let small = area(w / 2, h / 2, 32);
    let blocks = area(w / 16, h / 16, 4);
    let column_bytes = COLUMN_WIDTH * (w / 16);
    let mode_bytes = MODE_WIDTH * blocks;
    let strength_bytes = STRENGTH_WIDTH * blocks;
    let mut y = luma();
    let mut u = chroma();
    let mut v = chroma();
    let mut columns = records();
    let mut modes = records();
    let mut strengths = records();
    told(
        file,
        &mut y[..large],
        &mut u[..small],
        &mut v[..small],
        &mut columns[..column_bytes],
        &mut modes[..mode_bytes],
        &mut strengths[..strength_bytes],
    )
}

// A case file through the picture call.
pub fn run(file: &[u8]) -> Ran
    ensures { result ≡ ran_of file.now }
{
    if !well_formed(file) {
        return malformed();
    }
    lent(file, width(file), height(file))
}
