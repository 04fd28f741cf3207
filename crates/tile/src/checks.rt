// The argument checks of a tile: 1 the sides, 2 the count, 5 the partitions. Nothing is added before it is known to be small.
ghost use Rattle.std.specs.Prelude.{◌≡◌};
ghost use Rattle.tile.specs.Tile.{side_of, sides_of, count_of, inside_of, tokens_fine, partitions_of};

use crate::partitions::part;
use crate::{Span, Tile};
use reader::boolean::valid;

// A side is a multiple of 16 in 16..=16384.
pub fn side_fine(n: usize) -> bool
    ensures { result ≡ side_of n }
{
    (16 <= n) & (n <= 16384) & (n % 16 == 0)
}

// Check 1.
pub fn sides_fine(w: usize, h: usize) -> bool
    ensures { result ≡ sides_of w h }
{
    side_fine(w) & side_fine(h)
}

// Check 2.
pub fn count_fine(count: usize) -> bool
    ensures { result ≡ count_of count }
{
    (1 <= count) & (count <= 8)
}

// Whether a span lies inside n bytes.
fn inside(n: usize, span: Span) -> bool
    ensures { result ≡ inside_of n span }
{
    if n < span.start {
        return false;
    }
    span.len <= n - span.start
}

// The same of the first `count` token partitions.
fn tokens_inside(n: usize, tile: Tile) -> bool
    ensures { result ≡ tokens_fine n tile }
{
    let tokens = tile.tokens;
    let some = tile.count.min(8);
    for i in 0..some {
        if !inside(n, tokens[i]) {
            return false;
        }
    }
    true
}

// Check 5.
pub fn partitions_fine(bytes: &[u8], tile: Tile) -> bool
    ensures { result ≡ partitions_of bytes.now tile }
{
    let first = tile.first;
    if !inside(bytes.len(), first) {
        return false;
    }
    if !tokens_inside(bytes.len(), tile) {
        return false;
    }
    let reader = tile.reader;
    valid(part(bytes, first), reader)
}
