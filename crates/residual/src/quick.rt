// A macroblock over a wide reader: all of its blocks are read over bytes that zeros follow, then one look says whether the partition's end
// was passed. Where it was, nothing is kept, and the blocks are read again one by one.
ghost use Rattle.std.specs.Prelude.{◌≡◌, ◌+◌, ◌*◌, ◌^◌, ◌<◌, ◌≤◌, true, false, length, replicate, pos, negsuc};
ghost use Rattle.header.specs.Header.{probability_count};
ghost use Rattle.numbers.specs.In.{Each};
ghost use Rattle.reader.specs.Reading.{Valid};
ghost use Rattle.wide.specs.Counted.{counted};
ghost use Rattle.wide.specs.WideRuns.{WideReads};
ghost use Rattle.residual.specs.Residual.{Flags, sixteen_at, stored, residual_of};
ghost use Rattle.residual.specs.Symbols.{norms_of, Ranged};
ghost use Rattle.residual.specs.Fast.{places_after_of};
ghost use Rattle.residual.specs.Quick.{wider_of, model_at, QuickWhere};
ghost use Rattle.residual.specs.Groups.{group_of, GroupFits, settled_of, none_after, zeros_at, Ready, Passed};

use crate::answers::{Residual, ResidualRead, no_residual};
use crate::blocks::{Kind, kind_of, second_kind};
use crate::fast::{Spots, places_after, read_block};
use crate::norms::norms;
use header::quantizers::Factors;
use reader::boolean::{Reader, Unread};
use transform::transform;
use wide::wide::{Wide, inside, narrow, widen};

// What goes from block to block. The flags stand beside it, and the numbers: the 384 of the macroblock, then sixteen of the second-order
// block. On the way `empty` is whether no block ended past 1: first coefficients are looked at once, behind the last.
#[derive(Clone, Copy)]
pub(crate) struct Passing {
    pub next: Wide,
    pub reads: u64,
    pub empty: bool,
}

// The residual of a macroblock and its symbols, where its end was not passed.
#[derive(Clone, Copy)]
pub(crate) struct Quick {
    pub fine: bool,
    pub read: ResidualRead,
}

// The numbers of the second-order block.
fn seconds(flat: &[i16]) -> [i32; 16]
    requires { length flat.now ≡ 400 }
    ensures { result ≡ sixteen_at flat.now 384 }
{
    let mut c = [0; 16];
    for k in 0..16usize {
        c[k] = i32::from(flat[384 + k]);
    }
    c
}

// The first coefficient of each luma block.
fn set_firsts(flat: &mut [i16], dc: &[i32; 16])
    requires { (length flat.old ≡ 400) × Each (negsuc 32767) (pos 32767) dc.now }
    ensures { flat.new ≡ stored flat.old 0 dc.now }
{
    for k in 0..16usize {
        flat[k] = dc[k] as i16;
    }
}

// The second-order block's transform gives the first coefficient of each luma block.
fn spread_second(flat: &mut [i16])
    requires { length flat.old ≡ 400 }
    ensures { flat.new ≡ settled_of 0 flat.old }
{
    let c = seconds(&flat[..]);
    let t = transform(&c, true);
    let dc = t.samples;
    set_firsts(flat, &dc);
}

// The blocks of one kind and plane are a square: its side, the first of its flags on either edge, where the numbers of its first block
// go (those of each block after it one further), and how far apart those of a block are.
#[derive(Clone, Copy)]
pub(crate) struct Group {
    pub kind: Kind,
    pub side: usize,
    pub flag: usize,
    pub at: usize,
    pub step: usize,
}

// Group 0 is the second-order block, 1 luma, 2 U, 3 V.
fn group_at(f: Factors, small: bool, g: usize) -> Group
    requires { g < 4 }
    ensures { (result ≡ group_of f small g) × GroupFits result }
{
    if g == 0 {
        let k = second_kind(f);
        return Group {
            kind: k,
            side: 1,
            flag: 8,
            at: 384,
            step: 1,
        };
    }
    if g == 1 {
        let k = kind_of(f, small, 0);
        return Group {
            kind: k,
            side: 4,
            flag: 0,
            at: 0,
            step: 16,
        };
    }
    let k = kind_of(f, small, 16);
    Group {
        kind: k,
        side: 2,
        flag: 2 * g,
        at: 248 + 4 * g,
        step: 8,
    }
}

// A row of a group. The flag to the left goes from block to block, and is stored behind the last. Here is the one call of the block reader:
// with two the compiler would no longer draw it in.
fn row(
    s: &[u8],
    norms: &[u8; 510],
    table: &[u8],
    places: &[u16; 16],
    k: Group,
    m: Passing,
    y: usize,
    top: &mut [u8; 9],
    left: &mut [u8; 9],
    flat: &mut [i16],
) -> Passing
    requires group_fits { GroupFits k × ((y < k.side) × (m.reads < 2 ^ 32)) }
    requires ready { Ready table.now (wider_of m top.old left.old) flat.old }
    requires norms_value { (norms.now ≡ norms_of) × (places.now ≡ places_after_of k.kind.kind) }
    ensures { Passed s.now table.now k
        (k.side * y) (wider_of m top.old left.old) flat.old
        (k.side * (y + 1)) (wider_of result top.new left.new) flat.new }
{
    let kind = k.kind;
    let at = k.at + k.side * y;
    let mut next = m.next;
    let mut reads = m.reads;
    let mut empty = m.empty;
    let mut beside = left[k.flag + y];
    for x in 0..k.side {
        let ctx = (top[k.flag + x] + beside) as usize;
        let spots = Spots {
            at: at + x,
            step: k.step,
        };
        let b = read_block(s, next, norms, table, places, kind, ctx, flat, spots);
        beside = u8::from(kind.first < b.end);
        top[k.flag + x] = beside;
        empty = empty & (b.end <= 1);
        reads = reads + b.reads;
        next = b.next;
    }
    left[k.flag + y] = beside;
    Passing { next, reads, empty }
}

fn rows(
    s: &[u8],
    norms: &[u8; 510],
    table: &[u8],
    k: Group,
    start: Passing,
    top: &mut [u8; 9],
    left: &mut [u8; 9],
    flat: &mut [i16],
) -> Passing
    requires group_fits { GroupFits k × (start.reads < 2 ^ 31) }
    requires ready { Ready table.now (wider_of start top.old left.old) flat.old }
    requires norms_value { norms.now ≡ norms_of }
    ensures { Passed s.now table.now k
        0 (wider_of start top.old left.old) flat.old
        (k.side * k.side) (wider_of result top.new left.new) flat.new }
{
    let places = places_after(k.kind.kind);
    let mut m = start;
    for y in 0..k.side {
        m = row(s, norms, table, &places, k, m, y, top, left, flat);
    }
    m
}

// Behind a group: the second-order block has no say in whether the macroblock is empty.
fn settle(flat: &mut [i16], g: usize, none: bool) -> bool
    requires { length flat.old ≡ 400 }
    ensures { (flat.new ≡ settled_of g flat.old) × (result ≡ none_after g none) }
{
    if g == 0 {
        spread_second(flat);
        return true;
    }
    none
}

// Whether so many numbers from a place on are 0.
fn zeros(flat: &[i16], at: usize, n: usize) -> bool
    requires { at + n ≤ length flat.now }
    ensures { result ≡ zeros_at flat.now at n }
{
    let mut all = true;
    for i in 0..n {
        all = (flat[at + i] == 0) & all;
    }
    all
}

// All parts, from numbers that are zeros. Small modes have no second-order block.
fn parts(
    s: &[u8],
    table: &[u8],
    f: Factors,
    small: bool,
    start: Passing,
    top: &mut [u8; 9],
    left: &mut [u8; 9],
    flat: &mut [i16],
) -> Passing
    requires table_len { (length table.now ≡ probability_count) × ((flat.old ≡ replicate 400 (pos 0)) × Ranged start.next) }
    requires flags { (Flags top.old × Flags left.old) × ((start.reads ≡ 0) × (start.empty ≡ true)) }
    ensures { WideReads s.now 0 30400
        (counted 0 (residual_of table.now f small false top.old left.old)) start.next
        (model_at (wider_of result top.new left.new) flat.new, result.reads) result.next
        × (length flat.new ≡ 400) }
{
    let norms = norms();
    let mut m = start;
    for g in usize::from(small)..4 {
        let k = group_at(f, small, g);
        let q = rows(s, &norms, table, k, m, top, left, flat);
        let empty = settle(flat, g, q.empty);
        let next = q.next;
        m = Passing {
            next,
            reads: q.reads,
            empty,
        };
    }
    let next = m.next;
    Passing {
        next,
        reads: m.reads,
        empty: m.empty & (zeros(flat, 256, 8) & zeros(flat, 0, 16)),
    }
}

// The macroblock. Its coefficients reach `out` only where its end was not passed.
pub(crate) fn read_quick(
    s: &[u8],
    r: Reader,
    table: &[u8],
    f: Factors,
    small: bool,
    top: [u8; 9],
    left: [u8; 9],
    out: &mut [i16],
) -> Quick
    requires valid { Valid s.now r × (length table.now ≡ probability_count) }
    requires flags { (Flags top × Flags left) × (length out.old ≡ 384) }
    ensures { QuickWhere result.fine s.now r table.now f small top left
        out.old out.new result }
{
    let mut flat = [0i16; 400];
    let mut above = top;
    let mut beside = left;
    let start = Passing {
        next: widen(r),
        reads: 0,
        empty: true,
    };
    let m = parts(
        s,
        table,
        f,
        small,
        start,
        &mut above,
        &mut beside,
        &mut flat[..],
    );
    let w = m.next;
    if !inside(s, w) {
        return Quick {
            fine: false,
            read: no_residual(Err(Unread::Missing), 0),
        };
    }
    out.copy_from_slice(&flat[0..384]);
    let residual = Residual {
        answer: Ok((m.empty, narrow(s, w))),
        top: above,
        left: beside,
    };
    let read = ResidualRead {
        residual,
        reads: m.reads,
    };
    Quick { fine: true, read }
}
