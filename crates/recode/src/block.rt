// The tokens of a block, and of the blocks of a macroblock, read and written again (RFC 6386, section 13).
ghost use Rattle.std.specs.Prelude.{◌≡◌, false, ◌+◌, ◌<◌, ◌≤◌, length, get_or, set};
ghost use Rattle.header.specs.Header.{probability_count};
ghost use Rattle.header.specs.declared.quantizers.Factors.{Factors};
ghost use Rattle.numbers.specs.Flags.{bit_of};
ghost use Rattle.coefficients.specs.Block.{bands, probability_place};
ghost use Rattle.residual.specs.Quick.{kind_at, place_at};
ghost use Rattle.recode.specs.BlockCopies.{near_of, BlockCopies, PartCopies, ResidualCopies};

use crate::pipe::Pipe;
use crate::token::{LEADS, copy_rest, copy_token};
use coefficients::block::BANDS;
use residual::contexts::cleared;

// Where a block ended, and the pipe after it.
#[derive(Clone, Copy)]
pub(crate) struct BlockCopied {
    pub end: usize,
    pub next: Pipe,
}

// Where a part's flag above and its flag to the left stand.
#[derive(Clone, Copy)]
struct FlagPlace {
    x: usize,
    y: usize,
}

// What goes from block to block: the pipe, and the flags above and to the left.
#[derive(Clone, Copy)]
pub struct Flow {
    pub pipe: Pipe,
    pub top: [u8; 9],
    pub left: [u8; 9],
}

fn band(table: &[u8; 16], n: usize) -> usize
    requires table_value { table.now ≡ bands }
    requires n_bound { n < 16 }
    ensures { (result ≡ get_or bands n 0) × (result < 8) }
{
    usize::from(table[n])
}

// Where the eleven probabilities of a position stand in the table.
fn place(table: &[u8; 16], kind: usize, n: usize, ctx: usize) -> usize
    requires table_value { table.now ≡ bands }
    requires kind_bound { (kind < 4) × (n < 16) × (ctx < 3) }
    ensures { (result ≡ probability_place kind n ctx) × (result + 11 ≤ probability_count) }
{
    ((kind * 8 + band(table, n)) * 3 + ctx) * 11
}

// The context after a token 1..11.
fn near(token: u8) -> usize
    ensures { (result ≡ near_of token) × (result < 3) }
{
    if token == 1 {
        return 0;
    }
    if token == 2 {
        return 1;
    }
    2
}

// A block in its context, from its first position on.
fn copy_block(
    s: &[u8],
    p: Pipe,
    out: &mut [u8],
    table: &[u8],
    kind: usize,
    ctx: usize,
    first: usize,
) -> BlockCopied
    requires table_len { length table.now ≡ probability_count }
    requires kind_bound { (kind < 4) × (ctx < 3) × (first ≤ 1) }
    ensures { BlockCopies table.now kind ctx first s.now p out.old result.end result.next out.new }
{
    let bands = BANDS;
    let leads = LEADS;
    let mut next = p;
    let mut context = ctx;
    let mut zero = false;
    for n in first..16 {
        let at = place(&bands, kind, n, context);
        let t = copy_token(s, next, out, table, &leads, at, zero);
        let token = t.token;
        let q = t.next;
        if token == 0 {
            return BlockCopied { end: n, next: q };
        }
        next = copy_rest(s, q, out, token);
        context = near(token);
        zero = token == 1;
    }
    BlockCopied { end: 16, next }
}

// Part 0 is the second-order block, part i + 1 is block i: the kind of its probabilities,
fn kind_of(small: bool, j: usize) -> usize
    ensures { ((f : Factors) → result ≡ (kind_at f small j).kind) × (result < 4) }
{
    if j == 0 {
        return 1;
    }
    if 17 <= j {
        return 2;
    }
    if small {
        return 3;
    }
    0
}

// and its flags, above and to the left.
fn flags_of(j: usize) -> FlagPlace
    requires { j < 25 }
    ensures { (result.x ≡ (place_at j).x) × (result.y ≡ (place_at j).y) × (result.x < 9) × (result.y < 9) }
{
    if j == 0 {
        return FlagPlace { x: 8, y: 8 };
    }
    let i = j - 1;
    if i < 16 {
        return FlagPlace { x: i % 4, y: i / 4 };
    }
    let base = 4 + (i - 16) / 4 * 2;
    FlagPlace {
        x: base + i % 2,
        y: base + i % 4 / 2,
    }
}

// The context of a block: how many of its two flags are 1.
fn context_at(top: [u8; 9], left: [u8; 9], x: usize, y: usize) -> usize
    requires { (x < 9) × (y < 9) }
    ensures { (get_or top x 0 ≤ 1 → get_or left y 0 ≤ 1 → result ≡ get_or top x 0 + get_or left y 0) × (result < 3) }
{
    usize::from(top[x] != 0) + usize::from(left[y] != 0)
}

// The flags with one of them set or cleared.
fn flagged(flags: [u8; 9], x: usize, on: bool) -> [u8; 9]
    requires { x < 9 }
    ensures { result ≡ set flags x (bit_of on) }
{
    let mut next = flags;
    next[x] = u8::from(on);
    next
}

// A part in the context of its two flags. Only luma whose first numbers the second-order block has, kind 0, starts at position 1.
fn copy_part(s: &[u8], m: Flow, out: &mut [u8], table: &[u8], small: bool, j: usize) -> Flow
    requires table_len { length table.now ≡ probability_count }
    requires j_bound { j < 25 }
    ensures { PartCopies table.now small j s.now m out.old result out.new }
{
    let FlagPlace { x, y } = flags_of(j);
    let kind = kind_of(small, j);
    let first = usize::from(kind == 0);
    let top = m.top;
    let left = m.left;
    let b = copy_block(
        s,
        m.pipe,
        out,
        table,
        kind,
        context_at(top, left, x, y),
        first,
    );
    let next = b.next;
    let on = first < b.end;
    let above = flagged(top, x, on);
    let beside = flagged(left, y, on);
    Flow {
        pipe: next,
        top: above,
        left: beside,
    }
}

// All blocks of a macroblock that is not skipped.
fn copy_parts(s: &[u8], start: Flow, out: &mut [u8], table: &[u8], small: bool) -> Flow
    requires { length table.now ≡ probability_count }
    ensures { ResidualCopies table.now small false s.now start out.old result out.new }
{
    let mut m = start;
    for j in usize::from(small)..25 {
        m = copy_part(s, m, out, table, small, j);
    }
    m
}

// The tokens of a macroblock.
pub(crate) fn copy_residual(
    s: &[u8],
    m: Flow,
    out: &mut [u8],
    table: &[u8],
    small: bool,
    skip: bool,
) -> Flow
    requires { length table.now ≡ probability_count }
    ensures { ResidualCopies table.now small skip s.now m out.old result out.new }
{
    if skip {
        let pipe = m.pipe;
        let top = m.top;
        let left = m.left;
        let above = cleared(top, small);
        let beside = cleared(left, small);
        return Flow {
            pipe,
            top: above,
            left: beside,
        };
    }
    copy_parts(s, m, out, table, small)
}
