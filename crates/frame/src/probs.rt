// token_prob_update() (RFC 6386, sections 9.9, 13.4 and 19.2): 1056 probabilities, each kept or given anew.
ghost use Rattle.frame.specs.Header.{prob, probs};
ghost use Rattle.reader.specs.Reads.{Reads};

use crate::literal::{literal, nowhere};
use crate::tables::{defaults, updates};
use header::entries::PROBABILITY_COUNT;
use reader::boolean::Reader;

fn prob(s: &[u8], r: Reader, p: u8, old: u32) -> (u32, Reader)
    ensures { Reads (prob p old) s.now r result.0 result.1 }
{
    let Ok((given, next)) = r.symbol(s, p) else {
        return (old, nowhere());
    };
    if given {
        return literal(s, next, 8);
    }
    (old, next)
}

pub(crate) fn probs(s: &[u8], r: Reader) -> ([u32; PROBABILITY_COUNT], Reader)
    ensures { Reads probs s.now r result.0 result.1 }
{
    let chances = updates();
    let mut table = defaults();
    let mut next = r;
    for i in 0..PROBABILITY_COUNT {
        let (p, after) = prob(s, next, chances[i], table[i]);
        table[i] = p;
        next = after;
    }
    (table, next)
}
