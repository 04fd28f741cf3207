// Argument check 4, memory by memory: how long each must be. No product is made before the sides are known to be small.
ghost use Rattle.std.specs.Prelude.{◌≡◌, ◌*◌, ◌≤◌};
ghost use Rattle.lent.specs.Memory.{packed, luma_fine_of, chroma_fine_of, columns_fine_of, modes_fine_of, strengths_fine_of, sizes_fine_of};

use crate::columns::COLUMN_WIDTH;
use crate::macroblocks::{MODE_WIDTH, STRENGTH_WIDTH};
use tile::checks::sides_fine;

// The lengths of the lent memories.
#[derive(Clone, Copy)]
pub struct Sizes {
    pub y: usize,
    pub u: usize,
    pub v: usize,
    pub columns: usize,
    pub modes: usize,
    pub strengths: usize,
}

// A product of two sides, or of parts of them; 0 where one is longer than any side.
fn area(a: usize, b: usize) -> usize
    ensures { ((a ≤ 16384) → (b ≤ 16384) → result ≡ a * b) × (result ≤ 268435456) }
{
    if 16384 < a {
        return 0;
    }
    if 16384 < b {
        return 0;
    }
    a * b
}

pub fn luma_fine(w: usize, h: usize, n: usize) -> bool
    ensures { result ≡ luma_fine_of w h n }
{
    sides_fine(w, h) & (n == area(w, h))
}

// Of U or of V.
pub fn chroma_fine(w: usize, h: usize, n: usize) -> bool
    ensures { result ≡ chroma_fine_of w h n }
{
    sides_fine(w, h) & (n == area(w / 2, h / 2))
}

pub fn columns_fine(w: usize, h: usize, n: usize) -> bool
    ensures { result ≡ columns_fine_of packed w h n }
{
    sides_fine(w, h) & (n == COLUMN_WIDTH * (w / 16))
}

pub fn modes_fine(w: usize, h: usize, n: usize) -> bool
    ensures { result ≡ modes_fine_of w h n }
{
    sides_fine(w, h) & (n == MODE_WIDTH * area(w / 16, h / 16))
}

pub fn strengths_fine(w: usize, h: usize, n: usize) -> bool
    ensures { result ≡ strengths_fine_of w h n }
{
    sides_fine(w, h) & (n == STRENGTH_WIDTH * area(w / 16, h / 16))
}

// All six.
pub fn sizes_fine(w: usize, h: usize, z: Sizes) -> bool
    ensures { result ≡ sizes_fine_of packed w h z }
{
    luma_fine(w, h, z.y)
        & chroma_fine(w, h, z.u)
        & chroma_fine(w, h, z.v)
        & columns_fine(w, h, z.columns)
        & modes_fine(w, h, z.modes)
        & strengths_fine(w, h, z.strengths)
}
