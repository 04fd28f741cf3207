// The token partitions (RFC 6386, section 9.5): after the first partition stand the sizes of all but the last, three bytes each; then
// the partitions one after the other, the last up to the end.
ghost use Rattle.std.specs.Prelude.{◌≡◌, ◌<◌, ◌≤◌};
ghost use Rattle.frame.specs.Places.{partition_count, partition_size, partition_start, partition_span, token_spans};

use crate::tag::three;
use tile::Span;

// `last` is where the last one starts.
#[derive(Clone, Copy)]
pub(crate) struct Found {
    pub tokens: [Span; 8],
    pub last: usize,
}

// 1, 2, 4 or 8.
pub(crate) fn count(partitions: u32) -> usize
    requires { partitions < 4 }
    ensures { (result ≡ partition_count partitions) × (1 ≤ result) × (result ≤ 8) }
{
    1 << partitions
}

// The size of partition i that stands in the table; none of the last.
fn sized(b: &[u8], table: usize, count: usize, i: usize) -> usize
    requires { (table < 1000000) × (i < 8) }
    ensures { (result ≡ partition_size b.now table count i) × (result < 16777216) }
{
    if i + 1 < count {
        return three(b, table + 3 * i);
    }
    0
}

// Partition i, which starts at `at`.
fn cut(b: &[u8], table: usize, count: usize, i: usize, at: usize) -> Span
    requires { (table < 1000000) × (i < 8) }
    ensures { result ≡ partition_span b.now table count i at }
{
    if count <= i {
        return Span { start: 0, len: 0 };
    }
    if i + 1 < count {
        return Span {
            start: at,
            len: three(b, table + 3 * i),
        };
    }
    Span {
        start: at,
        len: b.len().saturating_sub(at),
    }
}

pub(crate) fn places(b: &[u8], table: usize, count: usize) -> Found
    requires { (table < 1000000) × (1 ≤ count) × (count ≤ 8) }
    ensures { (result.tokens ≡ token_spans b.now table count)
        × (result.last ≡ partition_start b.now table count 8) }
{
    let mut tokens = [Span { start: 0, len: 0 }; 8];
    let mut at = table + 3 * (count - 1);
    for i in 0..8 {
        tokens[i] = cut(b, table, count, i, at);
        at += sized(b, table, count, i);
    }
    Found { tokens, last: at }
}
