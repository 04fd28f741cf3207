// The flags of a macroblock's edges, nine above and nine to the left: 0..3 luma, 4..5 U, 6..7 V, 8 the second-order block (RFC 6386,
// section 13.3).
ghost use Rattle.std.specs.Prelude.{◌≡◌, ◌+◌, ◌<◌, set, slice_index, slice_set};
ghost use Rattle.numbers.specs.Flags.{bit_of};
ghost use Rattle.residual.specs.Residual.{Flags, coordinates, cleared, flags_of};

// The flags of a block: its column's above, its row's to the left.
#[derive(Clone, Copy)]
pub(crate) struct FlagsAt {
    pub x: usize,
    pub y: usize,
}

pub(crate) fn location(i: usize) -> FlagsAt
    requires { i < 24 }
    ensures { (result ≡ coordinates i) × ((result.x < 8) × (result.y < 8)) }
{
    if i < 16 {
        return FlagsAt { x: i % 4, y: i / 4 };
    }
    let base = 4 + (i - 16) / 4 * 2;
    FlagsAt {
        x: base + i % 2,
        y: base + i % 4 / 2,
    }
}

// The context of a block: how many of its two flags are 1.
pub(crate) fn near(top: [u8; 9], left: [u8; 9], x: usize, y: usize) -> usize
    requires { Flags top × (Flags left × ((x < 9) × (y < 9))) }
    ensures { (result ≡ slice_index top x + slice_index left y) × (result < 3) }
{
    (top[x] + left[y]) as usize
}

// The flags with one of them set or cleared.
pub(crate) fn flagged(flags: [u8; 9], x: usize, on: bool) -> [u8; 9]
    requires { x < 9 }
    ensures { result ≡ slice_set flags x (bit_of on) }
{
    let mut next = flags;
    next[x] = u8::from(on);
    next
}

// The flags after a skipped macroblock: where its modes are small it has no second-order block, and that flag stays.
pub fn cleared(flags: [u8; 9], small: bool) -> [u8; 9]
    ensures { result ≡ cleared small flags }
{
    let mut next = [0; 9];
    if small {
        next[8] = flags[8];
    }
    next
}

pub(crate) fn flags_fine(flags: [u8; 9]) -> bool
    ensures { result ≡ flags_of flags }
{
    let mut fine = true;
    for flag in flags {
        fine = (flag <= 1) & fine;
    }
    fine
}
