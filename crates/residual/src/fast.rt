// A block over a wide reader: nothing is refused, and the caller looks once whether the partition's end was passed.
ghost use Rattle.std.specs.Prelude.{◌≡◌, ℕ, ◌+◌, ◌*◌, ◌<◌, ◌≤◌, length, slice_index};
ghost use Rattle.header.specs.Header.{probability_count};
ghost use Rattle.numbers.specs.Wrap.{wrap_z};
ghost use Rattle.wide.specs.WideRuns.{WideReads};
ghost use Rattle.coefficients.specs.Block.{SixteenBits, category, magnitude, sign_of, probability_place, quantizer_at, block};
ghost use Rattle.wide.specs.Wide.{half_of};
ghost use Rattle.reader.specs.Token.{eleven_at};
ghost use Rattle.residual.specs.Symbols.{norms_of, Ranged};
ghost use Rattle.residual.specs.Fast.{BlockCoded, raised_of, places_after_of, token_symbols, Counting, Zeroed};

use crate::blocks::Kind;
use crate::symbols::{Numbered, bit, extra_bits};
use crate::walk::above;
use coefficients::block::{CAT1, CAT2, CAT3, CAT4, CAT5, CAT6, ZIGZAG};
use wide::wide::Wide;

// Where the 33 probabilities of the band of the position after each stand among those of its kind; after the last there is no position.
const BANDS_AFTER: [u16; 16] = [
    33, 66, 99, 198, 132, 165, 198, 198, 198, 198, 198, 198, 198, 198, 231, 0,
];

// How many symbols a token 2..11 is, with its number's extra bits: one less for the position, and its sign for that.
const SYMBOLS: [u8; 12] = [0, 0, 3, 5, 6, 6, 7, 8, 10, 11, 12, 18];

// Where a block's numbers go: number k to the place at + step * k.
#[derive(Clone, Copy)]
pub(crate) struct Spots {
    pub at: usize,
    pub step: usize,
}

// A coefficient, and the reader after it.
#[derive(Clone, Copy)]
pub(crate) struct Valued {
    pub value: i16,
    pub next: Wide,
}

// A number, eleven times the context after it, its symbols as `SYMBOLS` has them, and the reader after it.
#[derive(Clone, Copy)]
pub(crate) struct Number {
    pub value: u32,
    pub near: usize,
    pub reads: u64,
    pub next: Wide,
}

// The position of the number that ended a run of zeros, where its probabilities stand and those of the position after it for context 0, and
// the reader before its node 2; 16 where none did.
#[derive(Clone, Copy)]
pub(crate) struct Zeros {
    pub n: usize,
    pub place: usize,
    pub ahead: usize,
    pub next: Wide,
}

// Where a block ended, how many symbols it was, and the reader after it.
#[derive(Clone, Copy)]
pub(crate) struct WideBlock {
    pub end: usize,
    pub reads: u64,
    pub next: Wide,
}

// ---- the number of a token

fn coded_category(s: &[u8], w: Wide, norms: &[u8; 510], probs: &[u8], base: u32) -> Numbered
    requires probs_len_bound { (length probs.now ≤ 11) × (base ≤ 67) }
    requires norms_value { (norms.now ≡ norms_of) × Ranged w }
    ensures { WideReads s.now 0 64 (category base probs.now) w result.value result.next × ((result.value ≤ 2114) × Ranged result.next) }
{
    let c = extra_bits(s, w, norms, probs);
    let x = c.next;
    Numbered {
        value: base + c.value,
        next: x,
    }
}

fn coded_large(s: &[u8], w: Wide, norms: &[u8; 510], token: u8) -> Numbered
    requires le_token { (6 ≤ token) × (token ≤ 11) }
    requires norms_value { (norms.now ≡ norms_of) × Ranged w }
    ensures { WideReads s.now 0 64 (magnitude token) w result.value result.next × ((result.value ≤ 2114) × Ranged result.next) }
{
    match token {
        6 => coded_category(s, w, norms, &CAT1, 5),
        7 => coded_category(s, w, norms, &CAT2, 7),
        8 => coded_category(s, w, norms, &CAT3, 11),
        9 => coded_category(s, w, norms, &CAT4, 19),
        10 => coded_category(s, w, norms, &CAT5, 35),
        _ => coded_category(s, w, norms, &CAT6, 67),
    }
}

fn coded_magnitude(s: &[u8], w: Wide, norms: &[u8; 510], token: u8) -> Numbered
    requires le_token { (2 ≤ token) × (token ≤ 11) }
    requires norms_value { (norms.now ≡ norms_of) × Ranged w }
    ensures { WideReads s.now 0 64 (magnitude token) w result.value result.next × ((result.value ≤ 2114) × Ranged result.next) }
{
    if token < 6 {
        return Numbered {
            value: token as u32 - 1,
            next: w,
        };
    }
    coded_large(s, w, norms, token)
}

// A product with its sign, raised by a multiple of 65536 and by 32768, so that it is not negative.
fn raised(v: u32, q: u16, negative: bool) -> u32
    requires { v ≤ 2114 }
    ensures { (result ≡ raised_of negative (v * q)) × (v * q ≤ 268435456) }
{
    let x = v * q as u32;
    if negative {
        return 268468224 - x;
    }
    268468224 + x
}

// A number with its sign, times the quantizer, in 16 bits.
fn product(v: u32, q: u16, negative: bool) -> i16
    requires { v ≤ 2114 }
    ensures { result ≡ wrap_z (sign_of negative (v * q)) }
{
    ((raised(v, q, negative) % 65536) as i32 - 32768) as i16
}

// The sign of a number, which follows another symbol.
fn signed(w: Wide, v: u32, q: u16) -> Valued
    requires { v ≤ 2114 }
    ensures { (result.next ≡ (half_of w).next) × ((result.value ≡ wrap_z (sign_of (half_of w).on (v * q))) × SixteenBits result.value) }
{
    let g = w.half();
    let x = g.next;
    Valued {
        value: product(v, q, g.on),
        next: x,
    }
}

fn symbols(token: u8) -> u64
    requires { token < 12 }
    ensures { (result ≡ slice_index token_symbols token) × (result ≤ 18) }
{
    let costs = SYMBOLS;
    costs[token as usize] as u64
}

// From node 2, with eighteen bits loaded; eight are left for the sign. Most numbers are ones.
fn read_number(s: &[u8], w: Wide, norms: &[u8; 510], table: &[u8], at: usize) -> Number
    requires at_in_bounds { at + 11 ≤ length table.now }
    requires norms_value { (norms.now ≡ norms_of) × Ranged w }
    ensures { Counting s.now (eleven_at table.now at) w result × Ranged result.next }
{
    let o = bit(w, norms, table[at + 2]);
    let x = o.next;
    if o.on {
        let t = above(s, x, norms, table, at);
        let y = t.next;
        let token = t.token;
        let m = coded_magnitude(s, y, norms, token);
        let z = m.next;
        let full = z.fill(s);
        return Number {
            value: m.value,
            near: 22,
            reads: symbols(token),
            next: full,
        };
    }
    Number {
        value: 1,
        near: 11,
        reads: 3,
        next: x,
    }
}

// ---- a block

// Where the number of a position stands in the block.
fn spot(table: &[u8; 16], n: usize) -> usize
    requires n_bound { n < 16 }
    requires by_index { (k : ℕ) → slice_index table.now k < 16 }
    ensures { (result ≡ slice_index table.now n) × (result < 16) }
{
    table[n] as usize
}

fn quantizer(k: Kind, n: usize) -> u16
    ensures { result ≡ quantizer_at n k.q0 k.q1 }
{
    if n == 0 { k.q0 } else { k.q1 }
}

// Where the eleven probabilities of a block's first position stand; bands 0 and 1 are those of positions 0 and 1.
fn first_place(kind: usize, ctx: usize, first: usize) -> usize
    requires { (kind < 4) × ((ctx < 3) × (first ≤ 1)) }
    ensures { result ≡ probability_place kind first ctx }
{
    kind * 264 + first * 33 + ctx * 11
}

// Where those of the position after each stand, for context 0: with them a block has the kind no more to add.
pub(crate) fn places_after(kind: usize) -> [u16; 16]
    requires { kind < 4 }
    ensures { result ≡ places_after_of kind }
{
    let bands = BANDS_AFTER;
    let mut places = [0u16; 16];
    for i in 0..16usize {
        places[i] = bands[i] + 264 * kind as u16;
    }
    places
}

// Looked up before the symbol that chooses the context is known: after a mispredicted branch there is then one load less to wait for.
fn place_after(places: &[u16; 16], n: usize) -> usize
    requires { n < 16 }
    ensures { result ≡ slice_index places.now n }
{
    usize::from(places[n])
}

// From node 1 of a position on, with 25 bits loaded: past zeros, after which the block does not end.
fn pass_zeros(
    s: &[u8],
    w: Wide,
    norms: &[u8; 510],
    table: &[u8],
    places: &[u16; 16],
    kind: usize,
    first: usize,
    start: usize,
) -> Zeros
    requires places_value { (places.now ≡ places_after_of kind) × (length table.now ≡ probability_count) }
    requires kind_bound { (kind < 4) × ((first < 16) × (start + 11 ≤ length table.now)) }
    requires norms_value { (norms.now ≡ norms_of) × Ranged w }
    ensures { Zeroed s.now table.now kind first start w result × Ranged result.next }
{
    let mut at = start;
    let mut next = w;
    for n in first..16 {
        let ahead = place_after(places, n);
        let z = bit(next, norms, table[at + 1]);
        let x = z.next;
        if z.on {
            return Zeros {
                n,
                place: at,
                ahead,
                next: x,
            };
        }
        at = ahead;
        if n == 15 {
            return Zeros {
                n: 16,
                place: 0,
                ahead: 0,
                next: x,
            };
        }
        next = x.fill(s);
    }
    Zeros {
        n: 16,
        place: at,
        ahead: 0,
        next,
    }
}

// A block of arguments in range, its numbers stored at the spots. After each position one symbol is counted with it: the one that ends the
// block or the one that a zero still lacks makes up for the last.
pub(crate) fn read_block(
    s: &[u8],
    w: Wide,
    norms: &[u8; 510],
    table: &[u8],
    places: &[u16; 16],
    k: Kind,
    ctx: usize,
    out: &mut [i16],
    spots: Spots,
) -> WideBlock
    requires places_value { (places.now ≡ places_after_of k.kind) × ((norms.now ≡ norms_of) × Ranged w) }
    requires table_len { (length table.now ≡ probability_count) × ((k.kind < 4) × ((ctx < 3) × (k.first ≤ 1))) }
    requires le_step { (1 ≤ spots.step) × (spots.at + 15 * spots.step < length out.old) }
    ensures { BlockCoded s.now w (block table.now k.kind k.q0 k.q1 ctx k.first) spots.at spots.step
        out.old out.new result
        × ((result.reads ≤ 304) × Ranged result.next) }
{
    let zigzag = ZIGZAG;
    let mut next = w;
    let mut n = k.first;
    let mut here = first_place(k.kind, ctx, k.first);
    let mut reads: u64 = 0;
    // Stays a while: a turn goes past the zeros too, so its step is not one.
    while n < 16 {
        let full = next.fill(s);
        let e = bit(full, norms, table[here]);
        let x = e.next;
        if !e.on {
            return WideBlock {
                end: n,
                reads: reads + (n - k.first) as u64 + 1,
                next: x,
            };
        }
        let z = pass_zeros(s, x, norms, table, places, k.kind, n, here);
        let y = z.next;
        if z.n == 16 {
            return WideBlock {
                end: 16,
                reads: reads + (16 - k.first) as u64 + 1,
                next: y,
            };
        }
        let v = read_number(s, y, norms, table, z.place);
        let o = v.next;
        let d = signed(o, v.value, quantizer(k, z.n));
        let value = d.value;
        out[spots.at + spots.step * spot(&zigzag, z.n)] = value;
        reads = reads + v.reads;
        here = z.ahead + v.near;
        next = d.next;
        n = z.n + 1;
    }
    WideBlock {
        end: n,
        reads: reads + (n - k.first) as u64,
        next,
    }
}
