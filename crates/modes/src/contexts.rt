// What a macroblock leaves to the one below it and the one right of it.
ghost use Rattle.std.specs.Prelude.{◌≡◌};
ghost use Rattle.modes.specs.Modes.{bottom_of, right_of, each_below_of, empty_context, context_fine_of};

// The modes of the four sub-blocks on a side, and whether the blocks on that side had coefficients: four luma, two U, two V, Y2.
#[derive(Clone, Copy, Debug, PartialEq, Eq)]
pub struct Context {
    pub modes: [u8; 4],
    pub flags: [u8; 9],
}

impl Context {
    // Outside the picture: DC above and left, no coefficients.
    pub fn empty() -> Self
        ensures { result ≡ empty_context }
    {
        Context {
            modes: [0u8; 4],
            flags: [0u8; 9],
        }
    }
}

// The modes that the macroblock below sees: its last row.
pub fn bottom(modes: &[u8; 16]) -> [u8; 4]
    ensures { result ≡ bottom_of modes.now }
{
    [modes[12], modes[13], modes[14], modes[15]]
}

// The modes that the macroblock to the right sees: its last column.
pub fn right(modes: &[u8; 16]) -> [u8; 4]
    ensures { result ≡ right_of modes.now }
{
    [modes[3], modes[7], modes[11], modes[15]]
}

// Whether each of l is below the limit.
pub fn each_below(l: &[u8], limit: u8) -> bool
    ensures { result ≡ each_below_of limit l.now }
{
    // All are looked at, and not until the first, so that the compiler takes them together.
    let mut fine = true;
    for x in l {
        fine = (*x < limit) & fine;
    }
    fine
}

// Whether it is in range: each mode below 10, each flag 0 or 1.
pub fn context_fine(c: Context) -> bool
    ensures { result ≡ context_fine_of c }
{
    let modes = c.modes;
    let flags = c.flags;
    each_below(&modes, 10) & each_below(&flags, 2)
}
