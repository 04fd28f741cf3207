// A symbol over a wide reader, its doublings looked up: `Wide::bit` and `Wide::even` for ranges of 2 to 256. Two looks into a table, side by
// side, are fewer instructions than a count of zeros, a shift and a difference, and the shorter way to the next range.
ghost use Rattle.std.specs.Prelude.{◌≡◌, ◌-◌, ◌/◌, ◌^◌, ◌<◌, ◌≤◌, length, nat_lt};
ghost use Rattle.numbers.specs.Flags.{bit_of};
ghost use Rattle.reader.specs.Extra.{extra};
ghost use Rattle.wide.specs.Wide.{low_of, range_of, taken_off, lifted_of, wide_bit_of};
ghost use Rattle.wide.specs.WideRuns.{WideReads};
ghost use Rattle.residual.specs.Symbols.{norms_of, Ranged};

use std::num::wrapping_sub_u32;
use wide::wide::{Bit, Wide};

// A number of several bits, and the reader after it.
#[derive(Clone, Copy)]
pub(crate) struct Numbered {
    pub value: u32,
    pub next: Wide,
}

// The reader with a range of 1..255 and its doublings.
fn lifted(w: Wide, norms: &[u8; 510], value: u64, range: u32) -> Wide
    requires { (norms.now ≡ norms_of) × ((1 ≤ range) × (range < 256)) }
    ensures { (result ≡ lifted_of w value range) × Ranged result }
{
    let k = norms[range as usize - 1] as u32;
    Wide {
        at: w.at,
        value: value << k,
        top: norms[254 + range as usize] as u32,
        count: wrapping_sub_u32(w.count, k),
    }
}

// The split less one.
fn low(w: Wide, prob: u8) -> u32
    requires { Ranged w }
    ensures { (result ≡ low_of w prob) × (result < w.top) }
{
    (w.top * prob as u32) >> 8
}

// The eight bits that decide a symbol.
fn high(value: u64) -> u32
    ensures { result ≡ value / 2 ^ 56 }
{
    (value >> 56) as u32
}

// What a bit takes off the value.
fn taken(x: u32, on: bool) -> u64
    requires { x < 255 }
    ensures { result ≡ taken_off x on }
{
    if on {
        return (x as u64 + 1) << 56;
    }
    0
}

// The part of the range that it chooses: a wrapping difference, which the compiler takes for an index as it stands.
fn part_of(top: u32, x: u32, on: bool) -> u32
    requires { (x < top) × (top < 256) }
    ensures { (result ≡ range_of top x on) × ((1 ≤ result) × (result < 256)) }
{
    if on {
        return wrapping_sub_u32(top, x);
    }
    x + 1
}

// The reader after a bit.
fn after(w: Wide, norms: &[u8; 510], x: u32, on: bool) -> Wide
    requires norms_value { (norms.now ≡ norms_of) × (Ranged w × (x < w.top)) }
    requires on_value { on ≡ nat_lt x (w.value / 2 ^ 56) }
    ensures { (result ≡ lifted_of w (w.value - taken_off x on) (range_of w.top x on)) × Ranged result }
{
    lifted(w, norms, w.value - taken(x, on), part_of(w.top, x, on))
}

// One symbol.
pub(crate) fn bit(w: Wide, norms: &[u8; 510], prob: u8) -> Bit
    requires { (norms.now ≡ norms_of) × Ranged w }
    ensures { (result ≡ wide_bit_of w prob) × Ranged result.next }
{
    let x = low(w, prob);
    if x < high(w.value) {
        return Bit {
            on: true,
            next: after(w, norms, x, true),
        };
    }
    Bit {
        on: false,
        next: after(w, norms, x, false),
    }
}

// The same without a branch, where the bit is a number and not a way.
pub(crate) fn even(w: Wide, norms: &[u8; 510], prob: u8) -> Bit
    requires { (norms.now ≡ norms_of) × Ranged w }
    ensures { (result ≡ wide_bit_of w prob) × Ranged result.next }
{
    let x = low(w, prob);
    let on = x < high(w.value);
    Bit {
        on,
        next: after(w, norms, x, on),
    }
}

// A number of as many bits as there are probabilities, at most sixteen, most significant first: `reader::extra` in other words.
pub(crate) fn extra_bits(s: &[u8], w: Wide, norms: &[u8; 510], probs: &[u8]) -> Numbered
    requires { ((norms.now ≡ norms_of) × Ranged w) × (length probs.now ≤ 16) }
    ensures { WideReads s.now 0 64 (extra probs.now) w result.value result.next
        × ((result.value < 2 ^ length probs.now) × Ranged result.next) }
{
    let mut value: u32 = 0;
    let mut next = w;
    for prob in probs {
        let f = next.fill(s);
        let b = even(f, norms, *prob);
        value = value + value + u32::from(b.on);
        next = b.next;
    }
    Numbered { value, next }
}
