// One token of a block (RFC 6386, section 13.2): the walk of coeff_tree.
ghost use Rattle.std.specs.Prelude.{◌≡◌, ◌+◌, leb, length};
ghost use Rattle.reader.specs.Token.{token_answer};
ghost use Rattle.reader.specs.Counts.{token_count};

use crate::boolean::{Counted, Reader, Unread, valid};
use crate::trees::walk;

// The RFC's coeff_tree.
const TOKEN_TREE: [i16; 22] = [
    0, 1, -1, 2, -2, 3, 4, 6, -3, 5, -4, -5, 7, 8, -6, -7, 9, 10, -8, -9, -10, -11,
];

// Whether the table has eleven probabilities from `at` on.
fn has_eleven(table: &[u8], at: usize) -> bool
    ensures { result ≡ leb (at + 11) (length table.now) }
{
    11 <= table.len() && at <= table.len() - 11
}

// One token, its eleven probabilities from `at` on in the table; after a zero (token 1) the block does not end. Refused where the reader
// is out of range or the table has not eleven probabilities there.
pub fn walk_token(s: &[u8], r: Reader, table: &[u8], at: usize, zero: bool) -> Counted<u8>
    ensures { (result.answer ≡ token_answer s.now table.now at zero r)
        × (result.reads ≡ token_count s.now table.now at zero r) }
{
    if !(valid(s, r) & has_eleven(table, at)) {
        return Counted {
            answer: Err(Unread::Refused),
            reads: 0,
        };
    }
    // A block never ends after a zero: there the walk starts at node 1.
    let start = usize::from(zero);
    let t = walk(s, r, &table[at..at + 11], &TOKEN_TREE, start);
    let reads = t.reads;
    match t.answer {
        Ok((token, next)) => Counted {
            answer: Ok((token as u8, next)),
            reads,
        },
        Err(why) => Counted {
            answer: Err(why),
            reads,
        },
    }
}
