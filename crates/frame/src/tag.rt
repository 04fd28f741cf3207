// What stands before the first partition, as plain bytes (RFC 6386, sections 9.1 and 19.1).
ghost use Rattle.std.specs.Prelude.{◌≡◌, ◌<◌, ◌+◌, get_or};
ghost use Rattle.frame.specs.Tag.{two_at, three_at, first_size_of, width_of, height_of, tag_fine, rounded_of};

use numbers::byte_or_zero;

// The byte at i; past the end it is zero.
fn byte(b: &[u8], i: usize) -> usize
    ensures { (result ≡ get_or b.now i 0) × (result < 256) }
{
    usize::from(byte_or_zero(b, i))
}

// Two bytes, and three, the lowest first.
fn two(b: &[u8], i: usize) -> usize
    requires { i < 1000000000 }
    ensures { (result ≡ two_at b.now i) × (result < 65536) }
{
    byte(b, i) + 256 * byte(b, i + 1)
}

pub(crate) fn three(b: &[u8], i: usize) -> usize
    requires { i < 1000000000 }
    ensures { (result ≡ three_at b.now i) × (result < 16777216) }
{
    byte(b, i) + 256 * byte(b, i + 1) + 65536 * byte(b, i + 2)
}

// The size of the first partition, and the true sizes.
pub(crate) fn size(b: &[u8]) -> usize
    ensures { (result ≡ first_size_of b.now) × (result < 524288) }
{
    three(b, 0) / 32
}

pub fn first_size(b: &[u8]) -> usize
    ensures { result ≡ first_size_of b.now }
{
    size(b)
}

pub(crate) fn width(b: &[u8]) -> usize
    ensures { (result ≡ width_of b.now) × (result < 16384) }
{
    two(b, 6) % 16384
}

pub(crate) fn height(b: &[u8]) -> usize
    ensures { (result ≡ height_of b.now) × (result < 16384) }
{
    two(b, 8) % 16384
}

// A key frame's tag, start code and sizes: what 12 refuses.
pub fn good(b: &[u8]) -> bool
    ensures { result ≡ tag_fine b.now }
{
    let tag = three(b, 0);
    let first = byte(b, 3);
    let second = byte(b, 4);
    let third = byte(b, 5);
    let across = width(b);
    let down = height(b);
    (10 <= b.len())
        & (tag % 2 == 0)
        & ((first == 157) & (second == 1) & (third == 42))
        & (tag / 2 % 8 <= 3)
        & (1 <= across)
        & (1 <= down)
}

// The next multiple of 16.
pub(crate) fn rounded(n: usize) -> usize
    requires { n < 16384 }
    ensures { result ≡ rounded_of n }
{
    (n + 15) / 16 * 16
}
