// The coefficients of a block: tokens, the numbers and signs that follow them, where they stand and what they are multiplied by
// (RFC 6386, sections 13 and 14.1). A token itself is `reader::token::walk_token`.
ghost use Rattle.std.specs.Prelude.{◌≡◌, ℕ, ◌+◌, ◌*◌, ◌<◌, ◌≤◌, length, get_or, pos, negsuc};
ghost use Rattle.header.specs.Header.{probability_count};
ghost use Rattle.numbers.specs.In.{In};
ghost use Rattle.numbers.specs.Wrap.{wrap_z};
ghost use Rattle.reader.specs.Reading.{to_read, Valid, run, count};
ghost use Rattle.coefficients.specs.Block.{category, magnitude, sign_of, bands, probability_place, quantizer_at, context_after, magnitude_of, signed_value, signed_of, numeric_of, number_answer, signed_answer, block_of, sixteen_bits, block_arguments, block_call_of, block_by_header_of, table_of, block, block_reads, block_by_header_reads};

use header::entries::{COEFFICIENT_PROBABILITY, ENTRY_COUNT, PROBABILITY_COUNT, probability};
use numbers::wrap16;
use reader::boolean::{Counted, Read, Reader, Unread, valid};
use reader::extra::extra_bits;
use reader::token::walk_token;

// The band of a position, and where its number stands in the block.
pub const BANDS: [u8; 16] = [0, 1, 2, 3, 6, 4, 5, 6, 6, 6, 6, 6, 6, 6, 6, 7];

pub const ZIGZAG: [u8; 16] = [0, 1, 4, 8, 5, 2, 3, 6, 9, 12, 13, 10, 7, 11, 14, 15];

// The probabilities of a category's extra bits: the RFC's Pcat1 to Pcat6.
pub const CAT1: [u8; 1] = [159];

pub const CAT2: [u8; 2] = [165, 145];

pub const CAT3: [u8; 3] = [173, 148, 140];

pub const CAT4: [u8; 4] = [176, 155, 140, 135];

pub const CAT5: [u8; 5] = [180, 157, 141, 134, 130];

pub const CAT6: [u8; 11] = [254, 254, 243, 230, 196, 177, 153, 140, 133, 130, 129];

// ---- the number of a token

// A category's least number and what its extra bits add.
fn extended(s: &[u8], r: Reader, probs: &[u8], base: u32) -> Counted<u32>
    requires valid { Valid s.now r }
    requires probs_len_bound { (length probs.now ≤ 16) × (base < 256) }
    ensures { (result.answer ≡ to_read (run (category base probs.now) s.now r))
        × (result.reads ≡ count (category base probs.now) s.now r) }
{
    let bits = extra_bits(s, r, probs);
    let reads = bits.reads;
    let Ok((v, next)) = bits.answer else {
        return missing(reads);
    };
    Counted {
        answer: Ok((base + v, next)),
        reads,
    }
}

// A byte was missing, after so many symbols.
fn missing<T>(reads: u64) -> Counted<T>
    ensures { result ≡ record { answer = Err Unread.Missing; reads = reads } }
{
    Counted {
        answer: Err(Unread::Missing),
        reads,
    }
}

fn read_number(s: &[u8], r: Reader, token: u8) -> Counted<u32>
    requires valid { Valid s.now r }
    requires le_token { (2 ≤ token) × (token ≤ 11) }
    ensures { (result.answer ≡ magnitude_of s.now token r) × (result.reads ≡ count (magnitude token) s.now r) }
{
    if token < 6 {
        return Counted {
            answer: Ok((u32::from(token) - 1, r)),
            reads: 0,
        };
    }
    match token {
        6 => extended(s, r, &CAT1, 5),
        7 => extended(s, r, &CAT2, 7),
        8 => extended(s, r, &CAT3, 11),
        9 => extended(s, r, &CAT4, 19),
        10 => extended(s, r, &CAT5, 35),
        _ => extended(s, r, &CAT6, 67),
    }
}

fn wrapped(x: i64) -> i32
    requires { In (negsuc 999999999) (pos 1000000000) x }
    ensures { result ≡ wrap_z x }
{
    wrap16(x).unwrap_or(0)
}

// A number with its sign, times the quantizer, in 16 bits.
fn product(v: u32, q: u16, negative: bool) -> i32
    requires { v ≤ 2114 }
    ensures { result ≡ wrap_z (sign_of negative (v * q)) }
{
    let x = i64::from(v) * i64::from(q);
    wrapped(if negative { -x } else { x })
}

fn read_signed(s: &[u8], r: Reader, token: u8, q: u16) -> Counted<i32>
    requires valid { Valid s.now r }
    requires le_token { (2 ≤ token) × (token ≤ 11) }
    ensures { (result.answer ≡ signed_of s.now token q r) × (result.reads ≡ count (signed_value token q) s.now r) }
{
    let number = read_number(s, r, token);
    let reads = number.reads;
    let Ok((v, next)) = number.answer else {
        return missing(reads);
    };
    let Ok((negative, after)) = next.symbol(s, 128) else {
        return missing(reads);
    };
    Counted {
        answer: Ok((product(v, q, negative), after)),
        reads: reads + 1,
    }
}

// ---- a block

// What a table of the sixteen positions has for one of them.
fn entry(table: &[u8; 16], n: usize) -> usize
    requires n_bound { n < 16 }
    requires by_index { (k : ℕ) → get_or table.now k 0 < 16 }
    ensures { (result ≡ get_or table.now n 0) × (result < 16) }
{
    usize::from(table[n])
}

// Where the eleven probabilities of a position stand in the table.
fn place(table: &[u8; 16], kind: usize, n: usize, ctx: usize) -> usize
    requires table_value { table.now ≡ bands }
    requires kind_bound { (kind < 4) × ((n < 16) × (ctx < 3)) }
    ensures { (result ≡ probability_place kind n ctx) × (result + 11 ≤ probability_count) }
{
    ((kind * 8 + entry(table, n)) * 3 + ctx) * 11
}

#[tactic(auto, unfolding(crate::specs::Block::quantizer_at))]
fn quantizer(n: usize, q0: u16, q1: u16) -> u16
    ensures { result ≡ quantizer_at n q0 q1 }
{
    if n == 0 { q0 } else { q1 }
}

#[tactic(auto, unfolding(crate::specs::Block::context_after))]
fn context(token: u8) -> usize
    ensures { (result ≡ context_after token) × (result < 3) }
{
    if token == 2 { 1 } else { 2 }
}

// A block of arguments in range. Its numbers reach `out` only where it ended.
fn read_block(
    s: &[u8],
    r: Reader,
    table: &[u8],
    kind: usize,
    ctx: usize,
    first: usize,
    q0: u16,
    q1: u16,
    out: &mut [i32; 16],
) -> Counted<usize>
    requires valid { Valid s.now r }
    requires table_len { (length table.now ≡ probability_count) × ((kind < 4) × ((ctx < 3) × (first ≤ 1))) }
    ensures { (record { answer = result.answer; out = out.new }
        ≡ block_of s.now r table.now kind ctx first q0 q1 out.old)
        × (result.reads ≡ count (block table.now kind q0 q1 ctx first out.old) s.now r) }
{
    let mut values = *out;
    let mut next = r;
    let mut near = ctx;
    let mut zero = false;
    let mut reads: u64 = 0;
    for n in first..16 {
        let t = walk_token(s, next, table, place(&BANDS, kind, n, near), zero);
        reads += t.reads;
        let Ok((token, after)) = t.answer else {
            return missing(reads);
        };
        if token == 0 {
            *out = values;
            return Counted {
                answer: Ok((n, after)),
                reads,
            };
        }
        zero = token == 1;
        if zero {
            near = 0;
            next = after;
        } else {
            let number = read_signed(s, after, token, quantizer(n, q0, q1));
            reads += number.reads;
            let Ok((v, last)) = number.answer else {
                return missing(reads);
            };
            values[entry(&ZIGZAG, n)] = v;
            near = context(token);
            next = last;
        }
    }
    *out = values;
    Counted {
        answer: Ok((16, next)),
        reads,
    }
}

// ---- the public calls

// Whether each number fits 16 bits.
fn small(out: &[i32; 16]) -> bool
    ensures { result ≡ sixteen_bits out.now 16 }
{
    // All are looked at, and not until the first, so that the compiler takes them together.
    let mut fine = true;
    for v in out {
        fine = fine & ((-32768 <= *v) & (*v <= 32767));
    }
    fine
}

fn numeric(token: u8) -> bool
    ensures { result ≡ numeric_of token }
{
    (2 <= token) & (token <= 11)
}

// The magnitude of a token 2..11.
pub fn number(s: &[u8], r: Reader, token: u8) -> Read<u32>
    ensures { result ≡ number_answer s.now token r }
{
    if !(valid(s, r) & numeric(token)) {
        return Err(Unread::Refused);
    }
    read_number(s, r, token).answer
}

// The coefficient of a token 2..11: magnitude, sign and quantizer.
pub fn dequant(s: &[u8], r: Reader, token: u8, q: u16) -> Read<i32>
    ensures { result ≡ signed_answer s.now token q r }
{
    if !(valid(s, r) & numeric(token)) {
        return Err(Unread::Refused);
    }
    read_signed(s, r, token, q).answer
}

fn arguments(table: &[u8], kind: usize, ctx: usize, first: usize) -> bool
    ensures { result ≡ block_arguments table.now kind ctx first }
{
    (table.len() == PROBABILITY_COUNT) & ((kind < 4) & ((ctx < 3) & (first <= 1)))
}

// A block: where it ended, its numbers stored into `out`, which every other answer leaves as it was.
pub fn decode(
    s: &[u8],
    r: Reader,
    table: &[u8],
    kind: usize,
    ctx: usize,
    first: usize,
    q0: u16,
    q1: u16,
    out: &mut [i32; 16],
) -> Counted<usize>
    ensures { (record { answer = result.answer; out = out.new }
        ≡ block_call_of s.now r table.now kind ctx first q0 q1 out.old)
        × (result.reads ≡ block_reads s.now r table.now kind ctx first q0 q1 out.old) }
{
    if !(valid(s, r) & (arguments(table, kind, ctx, first) & small(out))) {
        return Counted {
            answer: Err(Unread::Refused),
            reads: 0,
        };
    }
    read_block(s, r, table, kind, ctx, first, q0, q1, out)
}

// The 1056 probabilities of a header as bytes, once for every block of a picture; none of a header that is not as long as it must be.
pub fn probabilities(h: &[i32]) -> Option<[u8; PROBABILITY_COUNT]>
    ensures { result ≡ table_of h.now }
{
    if h.len() != ENTRY_COUNT {
        return None;
    }
    let mut bytes = [0u8; PROBABILITY_COUNT];
    for i in 0..PROBABILITY_COUNT {
        bytes[i] = probability(h[COEFFICIENT_PROBABILITY + i]);
    }
    Some(bytes)
}

// `decode` with a header in place of its table.
pub fn decode_header(
    s: &[u8],
    r: Reader,
    h: &[i32],
    kind: usize,
    ctx: usize,
    first: usize,
    q0: u16,
    q1: u16,
    out: &mut [i32; 16],
) -> Counted<usize>
    ensures { (record { answer = result.answer; out = out.new }
        ≡ block_by_header_of s.now r h.now kind ctx first q0 q1 out.old)
        × (result.reads ≡ block_by_header_reads s.now r h.now kind ctx first q0 q1 out.old) }
{
    let Some(bytes) = probabilities(h) else {
        return Counted {
            answer: Err(Unread::Refused),
            reads: 0,
        };
    };
    decode(s, r, &bytes, kind, ctx, first, q0, q1, out)
}
