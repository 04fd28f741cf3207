// The boolean decoder (RFC 6386, section 7.3). A reader is four numbers by value; the partition's bytes stand beside it.
ghost use Rattle.std.specs.Prelude.{◌≡◌, ◌<◌, ◌≤◌, ◌*◌, ◌%◌, ◌^◌, eqb, leb, length, get_or};
ghost use Rattle.reader.specs.Reading.{given, split_of, chosen_of, grow, decided_of, symbol_of, to_read, valid_of, symbol_answer, first_reader, From, Valid};

use numbers::byte_or_zero;

// The RFC's bool_decoder: `at` its input, `range`, `shifts` its bit_count, `window` its value.
#[derive(Clone, Copy, Debug, PartialEq, Eq)]
pub struct Reader {
    pub at: usize,
    pub range: u32,
    pub shifts: u32,
    pub window: u32,
}

// Why nothing was read: one of the eight bits that decide a symbol lies past the end; or the reader, or another argument, is out of range.
#[derive(Clone, Copy, Debug, PartialEq, Eq)]
pub enum Unread {
    Missing,
    Refused,
}

// A value and the reader after it.
pub type Read<T> = Result<(T, Reader), Unread>;

// What was read, and by how many symbols; where one is missing, those before it.
#[derive(Clone, Copy)]
pub struct Counted<T> {
    pub answer: Read<T>,
    pub reads: u64,
}

// Where a range is split at a probability: strictly inside it.
fn split(range: u32, prob: u8) -> u32
    requires { (2 ≤ range) × (range < 256) }
    ensures { (result ≡ split_of range prob) × (1 ≤ result) × (result < range) }
{
    1 + (range - 1) * u32::from(prob) / 256
}

// How often a range is doubled until it is at least 128.
fn doublings(range: u32) -> u32
    requires { (1 ≤ range) × (range < 256) }
    ensures { (result < 8) × (128 ≤ range * 2 ^ result) × (range * 2 ^ result < 256) }
{
    u32::leading_zeros(range) - 24
}

// x * 2^k, for a range, a window or its new byte and fewer than eight shifts.
fn times(x: u32, k: u32) -> u32
    requires { (x < 65536) × (k < 8) }
    ensures { (result ≡ x * 2 ^ k) × (result < 8388608) }
{
    x << k
}

// The byte at a place; past the end it is zero.
fn byte_at(s: &[u8], at: usize) -> u32
    ensures { (result ≡ get_or s.now at 0) × (result < 256) }
{
    u32::from(byte_or_zero(s, at))
}

// Whether the eight bits that decide a symbol lie in s, for a reader whose place is past the end: only right after the first load that
// found no byte, when they are the last byte's. Other readers are not asked: one test is all that is made at every symbol.
fn decided(s: &[u8], r: Reader) -> bool
    requires valid { Valid s.now r }
    requires s_len_bound { length s.now < r.at }
    ensures { result ≡ decided_of s.now r }
{
    r.at - s.len() + r.shifts as usize == 1
}

// All the doublings at once, with at most one load. Where there are none, nothing is counted: that is every other symbol.
// Both ways make the reader field by field, and the load leaves its three numbers beside it: so the compiler keeps it out of memory.
fn grown(s: &[u8], bit: bool, r: Reader) -> Read<bool>
    requires { From 1 s.now r }
    ensures { result ≡ to_read (given bit (grow 7 s.now r)) }
{
    let Reader {
        at,
        range,
        shifts,
        window,
    } = r;
    if 128 <= range {
        return Ok((
            bit,
            Reader {
                at,
                range,
                shifts,
                window,
            },
        ));
    }
    let k = doublings(range);
    let wider = times(range, k);
    let moved = times(window, k);
    let n = shifts + k;
    let mut place = at;
    let mut left = n;
    let mut full = moved;
    if 8 <= n {
        place = at + 1;
        left = n - 8;
        full = moved + times(byte_at(s, at), n - 8);
    }
    Ok((
        bit,
        Reader {
            at: place,
            range: wider,
            shifts: left,
            window: full % 65536,
        },
    ))
}

// The part of the range that the bit chooses.
fn part(r: Reader, x: u32, bit: bool) -> Reader
    requires { (x ≤ r.range) × (r.range < 256) × (bit ≡ leb (256 * x) r.window) }
    ensures { result ≡ chosen_of r x bit }
{
    if bit {
        Reader {
            range: r.range - x,
            window: r.window - 256 * x,
            ..r
        }
    } else {
        Reader { range: x, ..r }
    }
}

// Whether the window is a multiple of 2^shifts.
fn whole(window: u32, shifts: u32) -> bool
    ensures { shifts < 8 → result ≡ eqb (window % 2 ^ shifts) 0 }
{
    shifts <= u32::trailing_zeros(window)
}

// Whether a reader is in range over s: what every call checks of its reader.
#[tactic(auto, unfolding(crate::specs::Reading::valid_of))]
pub fn valid(s: &[u8], r: Reader) -> bool
    ensures { result ≡ valid_of s.now r }
{
    2 <= r.at
        && r.at <= s.len() + 2
        && 128 <= r.range
        && r.range < 256
        && r.shifts < 8
        && r.window < 65536
        && whole(r.window, r.shifts)
}

// Opens a partition: two bytes in the window, zero past the end, and range 255.
pub fn open(s: &[u8]) -> Reader
    ensures { result ≡ first_reader s.now }
{
    let window = byte_at(s, 0) * 256 + byte_at(s, 1);
    Reader {
        at: 2,
        range: 255,
        shifts: 0,
        window,
    }
}

impl Reader {
    // One symbol of a reader that is in range.
    pub(crate) fn read(self, s: &[u8], prob: u8) -> Read<bool>
        requires { Valid s.now self }
        ensures { result ≡ to_read (symbol_of s.now self prob) }
    {
        if s.len() < self.at && !decided(s, self) {
            return Err(Unread::Missing);
        }
        let x = split(self.range, prob);
        let bit = 256 * x <= self.window;
        grown(s, bit, part(self, x, bit))
    }

    // One symbol of probability prob / 256 for a 0, and the reader after it.
    pub fn symbol(self, s: &[u8], prob: u8) -> Read<bool>
        ensures { result ≡ symbol_answer s.now self prob }
    {
        if !valid(s, self) {
            return Err(Unread::Refused);
        }
        self.read(s, prob)
    }
}
