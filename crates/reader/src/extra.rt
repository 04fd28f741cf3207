// A number of several bits, most significant first, each with its own probability: the extra bits of a coefficient's category
// (RFC 6386, section 13.2), and literals, whose probabilities are all 128 (section 8).
ghost use Rattle.std.specs.Prelude.{◌≡◌, ◌≤◌, length};
ghost use Rattle.reader.specs.Reading.{Valid, count};
ghost use Rattle.reader.specs.Extra.{extra, extra_of, extra_answer};
ghost use Rattle.reader.specs.Counts.{extra_count};

use crate::boolean::{Counted, Reader, Unread, valid};

fn read_extra(s: &[u8], r: Reader, probs: &[u8]) -> Counted<u32>
    requires valid { Valid s.now r }
    requires probs_len_bound { length probs.now ≤ 16 }
    ensures { (result.answer ≡ extra_of s.now probs.now r)
        × (result.reads ≡ count (extra probs.now) s.now r) }
{
    let mut next = r;
    let mut value: u32 = 0;
    for (i, prob) in probs.iter().enumerate() {
        match next.read(s, *prob) {
            Ok((bit, after)) => {
                value = value + value + u32::from(bit);
                next = after;
            }
            Err(why) => {
                return Counted {
                    answer: Err(why),
                    reads: i as u64,
                };
            }
        }
    }
    Counted {
        answer: Ok((value, next)),
        reads: probs.len() as u64,
    }
}

// A number of as many bits as there are probabilities; refused where the reader is out of range or there are over sixteen bits.
pub fn extra_bits(s: &[u8], r: Reader, probs: &[u8]) -> Counted<u32>
    ensures { (result.answer ≡ extra_answer s.now probs.now r)
        × (result.reads ≡ extra_count s.now probs.now r) }
{
    if !(valid(s, r) & (probs.len() <= 16)) {
        return Counted {
            answer: Err(Unread::Refused),
            reads: 0,
        };
    }
    read_extra(s, r, probs)
}
