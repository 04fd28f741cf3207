// What a rescue answered.
ghost use Rattle.std.specs.Prelude.{◌≡◌};
ghost use Rattle.told.specs.Told.{rescue_told, rescue_told_of};

use rescue::{Rescued, number, saved};

// The number, and the macroblocks marked 0 or 1.
pub fn tell_rescue(answer: Rescued, kept: &mut usize) -> u32
    ensures { rescue_told result kept.new ≡ rescue_told_of answer }
{
    *kept = saved(answer);
    number(answer)
}
