// The argument checks.
ghost use Rattle.std.specs.Prelude.{◌≡◌};
ghost use Rattle.deblock.specs.Deblock.{deblock_lengths, limits_of, deblock_checked, deblock_error_number_of};

use lent::macroblocks::{STRENGTH_WIDTH, read_strength};
use lent::sizes::{chroma_fine, luma_fine, strengths_fine};
use tile::checks::sides_fine;

// Which argument is refused: the sides, the lengths of what is lent, or a limit above 189.
#[derive(Clone, Copy, Debug, PartialEq, Eq)]
pub enum DeblockError {
    Sides,
    Lengths,
    Limit,
}

impl DeblockError {
    // As the calls of C answer it.
    pub fn number(self) -> u32
        ensures { result ≡ deblock_error_number_of self }
    {
        match self {
            DeblockError::Sides => 1,
            DeblockError::Lengths => 4,
            DeblockError::Limit => 11,
        }
    }
}

#[tactic(auto, unfolding(crate::specs::Deblock::deblock_lengths))]
fn lengths_fine(w: usize, h: usize, y: usize, u: usize, v: usize, strengths: usize) -> bool
    ensures { result ≡ deblock_lengths w h y u v strengths }
{
    luma_fine(w, h, y)
        & chroma_fine(w, h, u)
        & chroma_fine(w, h, v)
        & strengths_fine(w, h, strengths)
}

fn limits_fine(strengths: &[u8]) -> bool
    ensures { result ≡ limits_of strengths.now }
{
    let blocks = strengths.len() / STRENGTH_WIDTH;
    let mut fine = true;
    for k in 0..blocks {
        let found = read_strength(strengths, k);
        let t = found.strength;
        fine = (t.limit <= 189) & fine;
    }
    fine
}

// The first check that fails.
#[tactic(auto, unfolding(crate::specs::Deblock::deblock_checked))]
pub(crate) fn refusal(
    w: usize,
    h: usize,
    y: usize,
    u: usize,
    v: usize,
    strengths: &[u8],
) -> Result<(), DeblockError>
    ensures { result ≡ deblock_checked w h y u v strengths.now }
{
    if !sides_fine(w, h) {
        return Err(DeblockError::Sides);
    }
    if !lengths_fine(w, h, y, u, v, strengths.len()) {
        return Err(DeblockError::Lengths);
    }
    if !limits_fine(strengths) {
        return Err(DeblockError::Limit);
    }
    Ok(())
}
