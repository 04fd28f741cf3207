// The boolean decoder with a 64-bit window and zero padding. It never fails: the caller checks once whether it ran past the end. WideLaws
// relates it to a `Reader`.
ghost use Rattle.std.specs.Prelude.{◌≡◌, ◌+◌, ◌-◌, ◌*◌, ◌/◌, ◌%◌, ◌^◌, ◌<◌, ◌≤◌, true, false, slice_index};
ghost use Rattle.wide.specs.Wide.{four_of, fill_of, range_of, taken_off, doublings_of, lifted_of, wide_bit_of, odd_of, doubled_of, half_of, widen_of, eight_inside, back_of, narrow_of};

use numbers::byte_or_zero;
use reader::boolean::Reader;
use std::num::{wrapping_add_u64, wrapping_add_usize, wrapping_sub_u32, wrapping_sub_usize};

// `at` is the next byte's place; `value` the loaded bits from the top on, less what was subtracted; `top` the range less one; `count` how
// many bits are loaded.
#[derive(Clone, Copy)]
pub struct Wide {
    pub at: usize,
    pub value: u64,
    pub top: u32,
    pub count: u32,
}

// A symbol, and the reader after it.
#[derive(Clone, Copy)]
pub struct Bit {
    pub on: bool,
    pub next: Wide,
}

// The byte at a place; past the end it is zero.
fn byte(s: &[u8], i: usize) -> u64
    ensures { (result ≡ slice_index s.now i) × (result < 256) }
{
    u64::from(byte_or_zero(s, i))
}

// Four bytes as a number, the first the highest.
fn joined(a: u64, b: u64, c: u64, d: u64) -> u64
    requires { (a < 256) × (b < 256) × (c < 256) × (d < 256) }
    ensures { (result ≡ a * 16777216 + b * 65536 + c * 256 + d) × (result < 4294967296) }
{
    a * 16777216 + b * 65536 + c * 256 + d
}

// The four bytes from a place on; past the end they are zeros. The way past it is no call: so the compiler keeps `fill` small.
fn four(s: &[u8], at: usize) -> u64
    ensures { (result ≡ four_of s.now at) × (result < 4294967296) }
{
    if at < s.len() {
        if 4 <= s.len() - at {
            return joined(
                u64::from(s[at]),
                u64::from(s[at + 1]),
                u64::from(s[at + 2]),
                u64::from(s[at + 3]),
            );
        }
    }
    if s.len() <= at {
        return 0;
    }
    byte(s, at) * 16777216 + byte(s, at + 1) * 65536 + byte(s, at + 2) * 256 + byte(s, at + 3)
}

// The split less one. A product that keeps 32 bits serves every number; a mask, as a range has eight, would be one step more a symbol.
fn low(top: u32, prob: u8) -> u32
    ensures { (result ≡ top * prob % 2 ^ 32 / 256) × (result ≤ top) × (result < 16777216) }
{
    ((u64::from(top) * u64::from(prob) % 4294967296) as u32) >> 8
}

// The eight bits that decide a symbol.
fn high(value: u64) -> u32
    ensures { (result ≡ value / 2 ^ 56) × (result < 256) }
{
    (value >> 56) as u32
}

// What a bit takes off the value.
fn taken(x: u32, on: bool) -> u64
    requires { on ≡ true → x < 255 }
    ensures { result ≡ taken_off x on }
{
    if on { (u64::from(x) + 1) << 56 } else { 0 }
}

// The part of the range that it chooses.
fn part_of(top: u32, x: u32, on: bool) -> u32
    requires { (x ≤ top) × (x < 16777216) }
    ensures { result ≡ range_of top x on }
{
    if on { top - x } else { x + 1 }
}

// The doublings that a range of eight bits needs: its leading zeros of 32 bits, 24 to 31, without the bits of 24. So it is one step behind
// their count, on machines that count zeros and on those that look for the highest one.
#[tactic(auto, using(crate::specs::WideLaws::doublings_below), unfolding(crate::specs::Wide::doublings_of))]
fn doublings(range: u32) -> u32
    ensures { (result ≡ doublings_of range) × (result < 64) }
{
    u32::leading_zeros(range) ^ 24
}

// All of them at once, without a test whether there are any: that branch would be missed at every tenth symbol.
fn lifted(w: Wide, value: u64, range: u32) -> Wide
    ensures { result ≡ lifted_of w value range }
{
    let k = doublings(range);
    Wide {
        at: w.at,
        value: value << k,
        top: wrapping_sub_u32(range << (k % 32), 1),
        count: wrapping_sub_u32(w.count, k),
    }
}

// A half of the range, doubled, less one.
fn odd(top: u32, on: bool) -> u32
    ensures { result ≡ odd_of top on }
{
    wrapping_sub_u32(top, u32::from(on)) / 2 * 2 + 1
}

// One doubling.
fn doubled(w: Wide, value: u64, top: u32) -> Wide
    ensures { result ≡ doubled_of w value top }
{
    Wide {
        at: w.at,
        value: value << 1,
        top,
        count: wrapping_sub_u32(w.count, 1),
    }
}

impl Wide {
    // Four bytes more where fewer than 32 bits are loaded: then four symbols can be read.
    pub fn fill(self, s: &[u8]) -> Wide
        ensures { result ≡ fill_of s.now self }
    {
        let at = self.at;
        let count = self.count;
        if 32 <= count {
            return self;
        }
        Wide {
            at: wrapping_add_usize(at, 4),
            value: wrapping_add_u64(self.value, four(s, at) << (32 - count)),
            top: self.top,
            count: count + 32,
        }
    }

    // One symbol.
    pub fn bit(self, prob: u8) -> Bit
        ensures { result ≡ wide_bit_of self prob }
    {
        let top = self.top;
        let x = low(top, prob);
        if x < high(self.value) {
            return Bit {
                on: true,
                next: lifted(self, self.value - taken(x, true), part_of(top, x, true)),
            };
        }
        Bit {
            on: false,
            next: lifted(self, self.value, part_of(top, x, false)),
        }
    }

    // The same without a branch, where the bit is a number and not a way.
    pub fn even(self, prob: u8) -> Bit
        ensures { result ≡ wide_bit_of self prob }
    {
        let top = self.top;
        let x = low(top, prob);
        let on = x < high(self.value);
        Bit {
            on,
            next: lifted(self, self.value - taken(x, on), part_of(top, x, on)),
        }
    }

    // The same at probability 128 after another symbol, when the range is below 255: what is chosen is then doubled once.
    pub fn half(self) -> Bit
        ensures { result ≡ half_of self }
    {
        let top = self.top;
        let x = top / 2;
        let on = x < high(self.value);
        let value = self.value - taken(x, on);
        Bit {
            on,
            next: doubled(self, value, odd(top, on)),
        }
    }
}

// A reader's window as the top of a wide one.
pub fn widen(r: Reader) -> Wide
    ensures { result ≡ widen_of r }
{
    Wide {
        at: r.at,
        value: u64::from(r.window) << 48,
        top: wrapping_sub_u32(r.range, 1),
        count: 16 - r.shifts % 8,
    }
}

// Whether the eight bits after those lie in s.
#[tactic(auto, unfolding(crate::specs::Wide::eight_inside))]
pub fn inside(s: &[u8], w: Wide) -> bool
    ensures { result ≡ eight_inside s.now w }
{
    w.at < s.len() + (w.count / 8) as usize
}

// How many bytes from the first bit that was not passed on are loaded, in part or whole.
fn back(count: u32) -> usize
    ensures { (result ≡ back_of count) × (result < 4294967296) }
{
    (count / 8 + (count % 8 + 7) / 8) as usize
}

// A window without its low bits.
fn floored(window: u32, shifts: u32) -> u32
    requires { (window < 65536) × (shifts < 8) }
    ensures { result ≡ window / 2 ^ shifts * 2 ^ shifts }
{
    (window >> shifts) << shifts
}

fn sixteen(value: u64) -> u32
    ensures { (result ≡ value / 2 ^ 48) × (result < 65536) }
{
    (value >> 48) as u32
}

// The reader that a wide one stands for.
pub fn narrow(s: &[u8], w: Wide) -> Reader
    ensures { result ≡ narrow_of s.now w }
{
    let count = w.count;
    let shifts = (8 - count % 8) % 8;
    let full = w.fill(s);
    Reader {
        at: wrapping_sub_usize(wrapping_add_usize(w.at, 2), back(count)),
        range: w.top % 256 + 1,
        shifts,
        window: floored(sixteen(full.value), shifts),
    }
}
