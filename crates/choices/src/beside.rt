// What lies to the left of a macroblock.
ghost use Rattle.std.specs.Prelude.{◌≡◌};
ghost use Rattle.choices.specs.Choices.{beside_of};

use modes::contexts::Context;

// At column 0 nothing lies to the left.
pub fn beside(column: usize, left: Context) -> Context
    ensures { result ≡ beside_of column left }
{
    if column == 0 {
        return Context::empty();
    }
    left
}
