// The argument checks: the picture call's, the fourth of which covers the marks too, a byte a macroblock.
ghost use Rattle.std.specs.Prelude.{◌≡◌};
ghost use Rattle.choices.specs.Choices.{call_of};
ghost use Rattle.rescue.specs.Rescue.{rescue_checked_of};

use choices::answer::Refusal;
use choices::checks::refusal;
use lent::macroblocks::MODE_WIDTH;
use lent::sizes::Sizes;
use tile::Tile;

// The first check that fails. Where the picture call's fourth passes, the mode memory tells how many macroblocks there are.
pub(crate) fn refusal_with_marks(
    bytes: &[u8],
    tile: Tile,
    header: &[i32],
    sizes: Sizes,
    marks: usize,
) -> Result<(), Refusal>
    ensures { result ≡ rescue_checked_of (call_of bytes.now tile header.now) sizes marks }
{
    match refusal(bytes, tile, header, sizes) {
        Ok(()) => {
            if marks != sizes.modes / MODE_WIDTH {
                return Err(Refusal::Memory);
            }
            Ok(())
        }
        Err(bad) => {
            let n = bad.number();
            if n < 5 {
                return Err(bad);
            }
            if marks != sizes.modes / MODE_WIDTH {
                return Err(Refusal::Memory);
            }
            Err(bad)
        }
    }
}
