// The boolean encoder (RFC 6386, section 7.3), over a room that the caller lends: what lies past the room's end is not written, so that over
// no room at all it only counts.
#![tactic(auto)]

ghost use Rattle.std.specs.Prelude.{◌≡◌, ◌+◌, ◌-◌, ◌*◌, ◌%◌, ◌^◌, ◌<◌, ◌≤◌, length, slice_set};
ghost use Rattle.wide.specs.Wide.{doublings_of};
ghost use Rattle.writer.specs.Encoder.{add_one_of};
ghost use Rattle.writer.specs.Room.{carried_in, byte_in, written_of, fresh_writer, writer_fine, split_in, loud_in, shifted_in, write_in, flush_in, flush_answer, ended_of, Fine};

use std::num::{wrapping_add_u32, wrapping_add_usize, wrapping_sub_u32};

// The RFC's bool_encoder: `at` the bytes written, `range`, `bottom`, `count` its bit_count.
#[derive(Clone, Copy)]
pub struct Writer {
    pub at: usize,
    pub range: u32,
    pub bottom: u32,
    pub count: u32,
}

// One more, carried through the bytes of 255 at the end of the first n.
fn add_one(out: &mut [u8], n: usize)
    requires { n ≤ length out.old }
    ensures { out.new ≡ add_one_of n out.old }
{
    for i in (0..n).rev() {
        let b = out[i];
        if b != 255 {
            out[i] = b + 1;
            return;
        }
        out[i] = 0;
    }
}

// A carry where there is one, unless the last byte written lies past the room.
fn carry(out: &mut [u8], n: usize, on: bool)
    ensures { out.new ≡ carried_in on n out.old }
{
    if on && n <= out.len() {
        add_one(out, n);
    }
}

// The lowest byte of v at a place of the room.
fn put(out: &mut [u8], at: usize, v: u32)
    ensures { out.new ≡ slice_set out.old at (v % 256) }
{
    if at < out.len() {
        out[at] = (v % 256) as u8;
    }
}

// A byte that is due, with the carry above it.
fn byte_out(out: &mut [u8], at: usize, due: u64)
    ensures { out.new ≡ byte_in out.old at due }
{
    carry(out, at, 256 <= due);
    put(out, at, (due % 256) as u32);
}

// As the reader splits a range; a product that keeps 32 bits serves every number.
fn split(range: u32, prob: u8) -> u32
    ensures { (result ≡ split_in range prob) × (result < 2 ^ 32) }
{
    let top = wrapping_sub_u32(range, 1);
    1 + (((u64::from(top) * u64::from(prob) % 4294967296) as u32) >> 8)
}

// How often a range of eight bits is doubled until it is at least 128, as `wide` counts it. Stays a copy of that one line: a public function
// would need a promise of its own.
#[tactic(auto, using(wide::specs::WideLaws::doublings_below), unfolding(wide::specs::Wide::doublings_of))]
fn doublings(range: u32) -> u32
    ensures { (result ≡ doublings_of range) × (result < 64) }
{
    u32::leading_zeros(range) ^ 24
}

// The range after all of them.
fn grown(range: u32, k: u32) -> u32
    ensures { result ≡ range * 2 ^ (k % 32) % 2 ^ 32 }
{
    range << (k % 32)
}

// The bottom after all of them, in 64 bits.
fn moved(bottom: u32, k: u32) -> u64
    requires { k < 64 }
    ensures { (result ≡ bottom * 2 ^ k % 2 ^ 64) × (result < 2 ^ 64) }
{
    u64::from(bottom) << k
}

// The shifts of a symbol where a byte is due: it leaves the top of `high`.
fn loud(w: Writer, range: u32, high: u64, k: u32, out: &mut [u8]) -> Writer
    requires { (w.count ≤ k) × (k < 64) × (high < 2 ^ 64) }
    ensures { written_of result out.new ≡ loud_in w out.old range high k }
{
    let over = k - w.count;
    let s = (24 + over) % 64;
    let due = high >> s;
    byte_out(out, w.at, due);
    let rest = high - (due << s);
    Writer {
        at: wrapping_add_usize(w.at, 1),
        range,
        bottom: (rest % 4294967296) as u32,
        count: wrapping_sub_u32(8, over),
    }
}

// All the shifts of a symbol at once.
fn shifted(w: Writer, range: u32, bottom: u32, out: &mut [u8]) -> Writer
    ensures { written_of result out.new ≡ shifted_in w out.old range bottom }
{
    let k = doublings(range);
    let high = moved(bottom, k);
    if w.count <= k {
        return loud(w, grown(range, k), high, k, out);
    }
    Writer {
        at: w.at,
        range: grown(range, k),
        bottom: (high % 4294967296) as u32,
        count: w.count - k,
    }
}

// 2^k
fn power(k: u32) -> u32
    requires { k < 32 }
    ensures { result ≡ 2 ^ k }
{
    1 << k
}

// The bottom's bits at the top of its 32.
fn lifted(bottom: u32, count: u32) -> u32
    requires { count < 32 }
    ensures { result ≡ bottom * 2 ^ count % 4294967296 }
{
    bottom << count
}

// Whether a writer is in range: what every call checks of it.
#[tactic(auto, unfolding(crate::specs::Room::writer_fine))]
fn fine(w: Writer) -> bool
    ensures { result ≡ writer_fine w }
{
    ((w.at < 9223372036854775808) & (u64::from(w.bottom) + u64::from(w.range) <= 4294967296))
        & (((128 <= w.range) & (w.range < 256)) & ((1 <= w.count) & (w.count <= 24)))
}

// The end of a writer in range.
fn finish(w: Writer, out: &mut [u8]) -> usize
    requires fine { Fine 128 w }
    requires count_bound { w.count ≤ 24 }
    ensures { (result ≡ w.at + 4) × (out.new ≡ flush_in w out.old) }
{
    let Writer {
        at,
        bottom,
        count,
        ..
    } = w;
    carry(out, at, power(32 - count) <= bottom);
    let v = lifted(bottom, count);
    put(out, at, v / 16777216);
    put(out, at + 1, v / 65536);
    put(out, at + 2, v / 256);
    put(out, at + 3, v);
    at + 4
}

impl Writer {
    // init_bool_encoder
    pub fn fresh() -> Writer
        ensures { result ≡ fresh_writer }
    {
        Writer {
            at: 0,
            range: 255,
            bottom: 0,
            count: 24,
        }
    }

    // write_bool: one symbol of probability prob / 256 for a 0. Nothing is checked, so that it costs little: RoomLaws has what it says of an
    // encoder. Each bit has its own way: where the bit is read just before, the reader's branch then decides here too.
    pub fn write(self, out: &mut [u8], prob: u8, bit: bool) -> Writer
        ensures { written_of result out.new ≡ write_in self out.old prob bit }
    {
        let x = split(self.range, prob);
        if bit {
            let range = wrapping_sub_u32(self.range, x);
            let bottom = wrapping_add_u32(self.bottom, x);
            return shifted(self, range, bottom, out);
        }
        shifted(self, x, self.bottom, out)
    }

    // flush_bool_encoder: how many bytes are written in all.
    pub fn flush(self, out: &mut [u8]) -> usize
        ensures { ended_of result out.new ≡ flush_answer self out.old }
    {
        if !fine(self) {
            return 0;
        }
        finish(self, out)
    }
}
