// The rules that the picture call decides: 5, it answers 0; 6, no macroblock is both skipped and small.
ghost use Rattle.std.specs.Prelude.{◌≡◌};
ghost use Rattle.profile.specs.Profile.{both_at, first_both_of, judged_of, decoded_of};

use crate::{Misfit, Profiled};
use choices::answer::{Decoded, finished, number};
use lent::macroblocks::read_mode_record;

// Whether macroblock k is both, by its mode record.
fn both(modes: &[u8], k: usize) -> bool
    ensures { result ≡ both_at modes.now k }
{
    let found = read_mode_record(modes, k);
    let kinds = found.kinds;
    kinds.skip & kinds.small
}

// The first of so many macroblocks that is, or their count.
fn first_both(modes: &[u8], blocks: usize) -> usize
    ensures { result ≡ first_both_of blocks 0 modes.now }
{
    for k in 0..blocks {
        if both(modes, k) {
            return k;
        }
    }
    blocks
}

// Rule 6 of a whole picture.
fn judged(modes: &[u8], blocks: usize) -> Profiled
    ensures { result ≡ judged_of blocks modes.now }
{
    let k = first_both(modes, blocks);
    if k < blocks {
        return Err(Misfit::Macroblock(k));
    }
    Ok(())
}

// Rules 5 and 6 of a picture call that answered so and left these modes.
pub(crate) fn decoded(answer: Decoded, modes: &[u8]) -> Profiled
    ensures { result ≡ decoded_of answer modes.now }
{
    let number = number(answer);
    if number != 0 {
        return Err(Misfit::Rule(5));
    }
    let blocks = finished(answer);
    judged(modes, blocks)
}
