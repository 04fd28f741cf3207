// What the cockpit profile says of a tile.
ghost use Rattle.std.specs.Prelude.{◌≡◌};
ghost use Rattle.told.specs.Told.{profile_told, profile_told_of};

use profile::{Profiled, macroblock_named, number, rule_failed};

// The number, the rule that fails and the macroblock that it names.
pub fn tell_profile(answer: Profiled, rule: &mut u32, macroblock: &mut usize) -> u32
    ensures { profile_told result rule.new macroblock.new ≡ profile_told_of answer }
{
    *rule = rule_failed(answer);
    *macroblock = macroblock_named(answer);
    number(answer)
}
