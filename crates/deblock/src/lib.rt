// The whole picture deblocked, RFC 6386 section 15, over lent planes and strengths: the argument checks (checks), one edge
// taken into a block and put back (blocks, sweeps), its positions side by side (edges), the edges of one macroblock and of all (squares),
// and the call.
#![tactic(auto)]

mod blocks;
pub mod checks;
mod edges;
mod squares;
mod sweeps;

ghost use Rattle.std.specs.Prelude.{◌≡◌};
ghost use Rattle.deblock.specs.Deblock.{DeblockAnswer, deblock_of};

use checks::{DeblockError, refusal};
use squares::squares;

// Deblocks the planes in place. `strengths` has 6 bytes a macroblock: limit, inner, threshold, inside; the last two are not
// looked at. The simple kind touches luma only. Where an argument is refused, nothing changes.
pub fn deblock(
    y: &mut [u8],
    u: &mut [u8],
    v: &mut [u8],
    strengths: &[u8],
    width: usize,
    height: usize,
    simple: bool,
) -> Result<(), DeblockError>
    ensures { ◌≡◌ {A = DeblockAnswer} (record { answer = result; planes = record { y = y.exit.now; u = u.new; v = v.new } })
        (deblock_of (record { y = y.entry.now; u = u.old; v = v.old }) strengths.now width height simple) }
{
    refusal(width, height, y.len(), u.len(), v.len(), strengths)?;
    let wide = width / 16;
    let high = height / 16;
    let mut none = [0; 0];
    squares(&mut y[..], &mut none[..], 16, wide, high, simple, strengths);
    if simple {
        return Ok(());
    }
    squares(&mut u[..], &mut v[..], 8, wide, high, simple, strengths);
    Ok(())
}
