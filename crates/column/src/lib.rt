// A macroblock column's context in four bytes (M-107): four modes of four bits, the first lowest, in a big-endian 16-bit number; nine
// flags of one bit, the first lowest, in another. Only this file knows.
#![tactic(auto)]

ghost use Rattle.std.specs.Prelude.{◌≡◌, ◌<◌};
ghost use Rattle.column.specs.Column.{packed_of, digits_of, half_of, packed_bytes, context_unpacked};

use modes::contexts::Context;

// In four bits each, the first lowest.
fn pack_modes(m: [u8; 4]) -> u32
    ensures { (result ≡ packed_of 16 m) × (result < 2097152) }
{
    let a = u32::from(m[0]);
    let b = u32::from(m[1]);
    let c = u32::from(m[2]);
    let d = u32::from(m[3]);
    a + (b + (c + d * 16) * 16) * 16
}

// In one bit each, the first lowest.
fn pack_flags(l: [u8; 9]) -> u32
    ensures { (result ≡ packed_of 2 l) × (result < 2097152) }
{
    let a = u32::from(l[0]);
    let b = u32::from(l[1]);
    let c = u32::from(l[2]);
    let d = u32::from(l[3]);
    let e = u32::from(l[4]);
    let f = u32::from(l[5]);
    let g = u32::from(l[6]);
    let h = u32::from(l[7]);
    let i = u32::from(l[8]);
    a + (b + (c + (d + (e + (f + (g + (h + i * 2) * 2) * 2) * 2) * 2) * 2) * 2) * 2
}

// The four bytes of a context.
pub fn pack(c: Context) -> [u8; 4]
    ensures { result ≡ packed_bytes c }
{
    let modes = c.modes;
    let flags = c.flags;
    let m = pack_modes(modes);
    let f = pack_flags(flags);
    [
        (m / 256 % 256) as u8,
        (m % 256) as u8,
        (f / 256 % 256) as u8,
        (f % 256) as u8,
    ]
}

// The 16-bit number of two bytes.
fn half(high: u8, low: u8) -> u32
    ensures { result ≡ half_of high low }
{
    u32::from(high) * 256 + u32::from(low)
}

fn unpack_modes(v: u32) -> [u8; 4]
    ensures { result ≡ digits_of 16 4 v }
{
    let b = v / 16;
    let c = b / 16;
    let d = c / 16;
    [
        (v % 16) as u8,
        (b % 16) as u8,
        (c % 16) as u8,
        (d % 16) as u8,
    ]
}

// Four flags: the bits of n at 0, 8, 16 and 24, of n times 1 + 2^7 + 2^14 + 2^21. In one number, so that a context is stored by words.
fn four_flags(n: u32) -> [u8; 4]
    requires { n < 16 }
    ensures { result ≡ digits_of 2 4 n }
{
    let a = (n * 2113665) & 16843009;
    let b = a / 256;
    let c = b / 256;
    let d = c / 256;
    [
        (a % 256) as u8,
        (b % 256) as u8,
        (c % 256) as u8,
        (d % 256) as u8,
    ]
}

fn unpack_flags(v: u32) -> [u8; 9]
    ensures { result ≡ digits_of 2 9 v }
{
    let a = four_flags(v % 16);
    let b = four_flags(v / 16 % 16);
    [
        a[0],
        a[1],
        a[2],
        a[3],
        b[0],
        b[1],
        b[2],
        b[3],
        (v / 256 % 2) as u8,
    ]
}

// The context that four bytes hold, in range or not.
pub fn unpack(b: [u8; 4]) -> Context
    ensures { result ≡ context_unpacked b }
{
    Context {
        modes: unpack_modes(half(b[0], b[1])),
        flags: unpack_flags(half(b[2], b[3])),
    }
}
