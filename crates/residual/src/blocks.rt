// The blocks of a macroblock, one after the other: the second-order luma block unless the modes are small, sixteen of luma, four of U, four
// of V (RFC 6386, section 13).
ghost use Rattle.std.specs.Prelude.{◌≡◌, ◌+◌, ◌<◌, true, length, replicate, pos, slice_index, slice_set};
ghost use Rattle.header.specs.Header.{probability_count};
ghost use Rattle.numbers.specs.Flags.{bit_of};
ghost use Rattle.reader.specs.Reading.{Valid};
ghost use Rattle.residual.specs.Residual.{Flags, cleared, second_kind_of, kind_of, second, advance, blocks_from, dc_stage_of, residual_of};
ghost use Rattle.residual.specs.Parts.{Held, Part, model_of};

use crate::contexts::{FlagsAt, cleared, flagged, location, near};
use crate::flat::{sixteen, spread, store};
use coefficients::block::decode;
use header::quantizers::Factors;
use reader::boolean::Reader;
use transform::transform;

// What a block's tokens go by: the kind of its probabilities, its first position, and what its numbers are multiplied by.
#[derive(Clone, Copy)]
pub(crate) struct Kind {
    pub kind: usize,
    pub first: usize,
    pub q0: u16,
    pub q1: u16,
}

// What goes from block to block; the coefficients stand beside it.
#[derive(Clone, Copy)]
pub(crate) struct State {
    pub reader: Reader,
    pub top: [u8; 9],
    pub left: [u8; 9],
    pub empty: bool,
}

// The state after a part, unless a byte was missing; and how many symbols the part alone read, up to a missing one.
#[derive(Clone, Copy)]
pub(crate) struct Turn {
    pub state: Option<State>,
    pub reads: u64,
}

pub(crate) fn second_kind(f: Factors) -> Kind
    ensures { result ≡ second_kind_of f }
{
    Kind {
        kind: 1,
        first: 0,
        q0: f.y2dc,
        q1: f.y2ac,
    }
}

pub(crate) fn kind_of(f: Factors, small: bool, i: usize) -> Kind
    ensures { result ≡ kind_of f small i }
{
    if 16 <= i {
        return Kind {
            kind: 2,
            first: 0,
            q0: f.uvdc,
            q1: f.uvac,
        };
    }
    if small {
        return Kind {
            kind: 3,
            first: 0,
            q0: f.ydc,
            q1: f.yac,
        };
    }
    Kind {
        kind: 0,
        first: 1,
        q0: f.ydc,
        q1: f.yac,
    }
}

// The context of a block: how many of its two flags are 1.
fn context_at(m: State, p: FlagsAt) -> usize
    requires { (Flags m.top × Flags m.left) × ((p.x < 9) × (p.y < 9)) }
    ensures { (result ≡ slice_index m.top p.x + slice_index m.left p.y) × (result < 3) }
{
    let top = m.top;
    let left = m.left;
    near(top, left, p.x, p.y)
}

// The state after a block.
fn passed(m: State, r: Reader, p: FlagsAt, on: bool, empty: bool) -> State
    requires { (p.x < 9) × (p.y < 9) }
    ensures { result
        ≡ record { reader = r; top = slice_set m.top p.x (bit_of on); left = slice_set m.left p.y (bit_of on); empty = empty } }
{
    let top = m.top;
    let left = m.left;
    let top_after = flagged(top, p.x, on);
    let left_after = flagged(left, p.y, on);
    State {
        reader: r,
        top: top_after,
        left: left_after,
        empty,
    }
}

// The second-order block: its transform gives the first coefficient of each luma block.
fn read_second(s: &[u8], table: &[u8], f: Factors, m: State, flat: &mut [i32]) -> Turn
    requires { Held s.now table.now m flat.old }
    ensures { Part (second table.now f (model_of m flat.old))
        s.now m.reader result flat.new }
{
    let k = second_kind(f);
    let p = FlagsAt { x: 8, y: 8 };
    let ctx = context_at(m, p);
    let mut c = [0; 16];
    let b = decode(s, m.reader, table, k.kind, ctx, k.first, k.q0, k.q1, &mut c);
    let reads = b.reads;
    let Ok((end, r)) = b.answer else {
        return Turn { state: None, reads };
    };
    let t = transform(&c, true);
    let dc = t.samples;
    spread(flat, &dc);
    let next = passed(m, r, p, k.first < end, m.empty);
    Turn {
        state: Some(next),
        reads,
    }
}

// Block i of the 24. Whether it is empty goes by its end and its first coefficient: zeros that were coded are something.
fn block(
    s: &[u8],
    table: &[u8],
    f: Factors,
    small: bool,
    m: State,
    i: usize,
    flat: &mut [i32],
) -> Turn
    requires { Held s.now table.now m flat.old × (i < 24) }
    ensures { Part (advance table.now f small i (model_of m flat.old))
        s.now m.reader result flat.new }
{
    let k = kind_of(f, small, i);
    let p = location(i);
    let ctx = context_at(m, p);
    let mut c = sixteen(flat, 16 * i);
    let b = decode(s, m.reader, table, k.kind, ctx, k.first, k.q0, k.q1, &mut c);
    let reads = b.reads;
    let Ok((end, r)) = b.answer else {
        return Turn { state: None, reads };
    };
    store(flat, 16 * i, &c);
    let empty = m.empty & ((end <= 1) & (c[0] == 0));
    let next = passed(m, r, p, k.first < end, empty);
    Turn {
        state: Some(next),
        reads,
    }
}

fn blocks(s: &[u8], table: &[u8], f: Factors, small: bool, start: State, flat: &mut [i32]) -> Turn
    requires { Held s.now table.now start flat.old }
    ensures { Part (blocks_from table.now f small 24 0 (model_of start flat.old))
        s.now start.reader result flat.new }
{
    let mut m = start;
    let mut reads: u64 = 0;
    for i in 0..24usize {
        let t = block(s, table, f, small, m, i, flat);
        reads = reads + t.reads;
        let Some(next) = t.state else {
            return Turn { state: None, reads };
        };
        m = next;
    }
    Turn {
        state: Some(m),
        reads,
    }
}

// Small modes have no second-order block.
fn dc_stage(s: &[u8], table: &[u8], f: Factors, small: bool, m: State, flat: &mut [i32]) -> Turn
    requires { Held s.now table.now m flat.old }
    ensures { Part (dc_stage_of table.now f small (model_of m flat.old))
        s.now m.reader result flat.new }
{
    if small {
        return Turn {
            state: Some(m),
            reads: 0,
        };
    }
    read_second(s, table, f, m, flat)
}

// The state after a macroblock of which nothing is read.
fn skipped(r: Reader, small: bool, top: [u8; 9], left: [u8; 9]) -> State
    ensures { result ≡ record { reader = r; top = cleared small top; left = cleared small left; empty = true } }
{
    let top_after = cleared(top, small);
    let left_after = cleared(left, small);
    State {
        reader: r,
        top: top_after,
        left: left_after,
        empty: true,
    }
}

// A macroblock, on coefficients that start as zeros.
pub(crate) fn read(
    s: &[u8],
    r: Reader,
    table: &[u8],
    f: Factors,
    small: bool,
    skip: bool,
    top: [u8; 9],
    left: [u8; 9],
    flat: &mut [i32],
) -> Turn
    requires valid { Valid s.now r × (length table.now ≡ probability_count) }
    requires flags { (Flags top × Flags left) × (flat.old ≡ replicate 384 (pos 0)) }
    ensures { Part (residual_of table.now f small skip top left)
        s.now r result flat.new }
{
    if skip {
        let next = skipped(r, small, top, left);
        return Turn {
            state: Some(next),
            reads: 0,
        };
    }
    let start = State {
        reader: r,
        top,
        left,
        empty: true,
    };
    let t = dc_stage(s, table, f, small, start, flat);
    let Some(next) = t.state else {
        return t;
    };
    let rest = blocks(s, table, f, small, next, flat);
    Turn {
        state: rest.state,
        reads: t.reads + rest.reads,
    }
}
