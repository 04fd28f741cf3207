// Sub-blocks of 4 by 4: each is predicted, and its residual added.
ghost use Rattle.std.specs.Prelude.{◌≡◌, true, false, [], ◌+◌, ◌*◌, ◌/◌, ◌<◌, ◌≤◌, pos, length, replicate};
ghost use Rattle.predict.specs.Predict.{Size};
ghost use Rattle.planes.specs.Paint.{painted, blocks_painted, small_at, small_rule, square_painted, square_blocks};
ghost use Rattle.planes.specs.Places.{Square, BlockSides, Lies, Sub};
ghost use Rattle.planes.specs.Pieces.{Joined, Looked, Marked, Coded, NoneBelow, FirstFit, Ready, stand_rule};

use crate::add::add;
use crate::edges::{Spot, above_right, around, place};
use crate::put::{predict, put_block};
use predict::small_block;

// Eight numbers from the place `from` on, each joined bit by bit to one of `some`.
fn join(c: &[i16], from: usize, some: &mut [i16; 8])
    requires { (from + 8 ≤ length c.now) × (length some.old ≡ 8) }
    ensures { Joined c.now from some.old some.new 8 }
{
    for i in 0..8usize {
        some[i] = some[i] | c[from + i];
    }
}

// Of the eight blocks from `first` on, of n: what their coefficients but the first have in any bit.
fn some_of_eight(c: &[i16], n: usize, first: usize) -> [i16; 8]
    requires { (16 * n ≡ length c.now) × (n ≤ 16) × (first + 8 ≤ n) }
    ensures { Looked c.now n first result 16 }
{
    let mut some = [0i16; 8];
    for k in 1..16usize {
        join(c, n * k + first, &mut some);
    }
    some
}

// The flags of eight blocks from `first` on: whether they have such a bit.
fn mark(coded: &mut [bool; 16], first: usize, some: [i16; 8])
    requires { (first + 8 ≤ 16) × (length coded.old ≡ 16) }
    ensures { Marked coded.old first some coded.new 8 }
{
    for i in 0..8usize {
        coded[first + i] = some[i] != 0;
    }
}

// Which of n sub-blocks, 8 or 16, have a coefficient but the first that is not 0. Each way names n by a constant, so that the compiler
// knows where the numbers stand.
pub(crate) fn coded_blocks(c: &[i16], n: usize) -> [bool; 16]
    requires { (16 * n ≡ length c.now) × (n ≤ 16) × (8 * (n / 8) ≡ n) × (0 < n) }
    ensures { Coded c.now n result n }
{
    let mut coded = [false; 16];
    if n == 16 {
        for h in 0..2usize {
            mark(&mut coded, 8 * h, some_of_eight(c, 16, 8 * h));
        }
        return coded;
    }
    mark(&mut coded, 0, some_of_eight(c, 8, 0));
    coded
}

// Whether one of them has.
pub(crate) fn any(coded: &[bool; 16]) -> bool
    ensures { result ≡ false → NoneBelow coded.now 16 }
{
    // All are looked at, and not until the first, so that the compiler takes them together.
    let mut some = false;
    for i in 0..16usize {
        some = coded[i] | some;
    }
    some
}

// Where their residuals go.
pub(crate) fn no_values() -> [i16; 256]
    ensures { result ≡ replicate 256 (pos 0) }
{
    [0; 256]
}

// Where sub-block i of a square of m by m lies. As m is 2 or 4, a mask and a shift serve in place of divisions.
fn sub_block(w: usize, x: usize, y: usize, m: usize, i: usize) -> Spot
    requires block_sides { BlockSides m }
    requires i_bound { i < m * m }
    requires m_bound { (x + 4 * m ≤ w) × (w ≤ 16384) × (y + 4 * m ≤ 16384) }
    ensures { Sub w x y m i result }
{
    let column = x + 4 * (i & (m - 1));
    let row = y + 4 * (i >> (m / 2));
    Spot {
        x: column,
        y: row,
        at: place(row, w, column),
    }
}

// The residuals of a square of m by m sub-blocks. A number that is read fits its type, so it ensures that the first coefficients do;
// `coded_blocks` reads, and ensures it of, the others.
fn add_blocks(
    p: &mut [u8],
    w: usize,
    x: usize,
    y: usize,
    m: usize,
    coded: &[bool; 16],
    r: &[i16; 256],
    c: &[i16],
    from: usize,
)
    requires square { Square (length p.old) w x y (4 * m) }
    requires block_sides { BlockSides m }
    requires ready { Ready c.now from (square_blocks (4 * m) from c.now) coded.now r.now (m * m) }
    ensures p_after { p.new
        ≡ blocks_painted (stand_rule w x y m) p.old w x y m (square_blocks (4 * m) from c.now) (m * m) }
    ensures first_fit { FirstFit c.now from (m * m) }
{
    for i in 0..m * m {
        let s = sub_block(w, x, y, m, i);
        let b = from + i;
        add(&mut p[..], w, s.at, coded[b], r, b, c[b]);
    }
}

// A sub-block in a small mode, as it is predicted.
fn predict_small(p: &mut [u8], w: usize, s: Spot, last: bool, right: [u8; 4], mode: u8)
    requires lies { Lies (length p.old) w s }
    requires x_bound { last ≡ false → s.x + 8 ≤ w }
    ensures { p.new ≡ painted p.old w s.x s.y (small_at p.old w s.x s.y last right mode) }
{
    let e = around(&p[..], w, s, last, right);
    let b = small_block(mode, e);
    put_block(p, w, s.at, &b[..]);
}

// The sub-blocks of a macroblock in small modes, of which each is predicted from those before it.
fn small_blocks(
    p: &mut [u8],
    w: usize,
    x: usize,
    y: usize,
    right: [u8; 4],
    modes: &[u8; 16],
    coded: &[bool; 16],
    r: &[i16; 256],
    c: &[i16],
)
    requires square { Square (length p.old) w x y 16 }
    requires ready { Ready c.now 0 (square_blocks 16 0 c.now) coded.now r.now 16 }
    ensures p_after { p.new ≡ blocks_painted (small_rule w x y right modes.now) p.old w x y 4
        (square_blocks 16 0 c.now) 16 }
    ensures first_fit { FirstFit c.now 0 16 }
{
    for i in 0..16usize {
        let s = sub_block(w, x, y, 4, i);
        predict_small(&mut p[..], w, s, i % 4 == 3, right, modes[i]);
        add(&mut p[..], w, s.at, coded[i], r, i, c[i]);
    }
}

// The macroblock in small modes.
pub(crate) fn small_square(
    p: &mut [u8],
    w: usize,
    x: usize,
    y: usize,
    modes: &[u8; 16],
    coded: &[bool; 16],
    r: &[i16; 256],
    c: &[i16],
)
    requires square { Square (length p.old) w x y 16 }
    requires x_bound { x + 16 < w → x + 20 ≤ w }
    requires ready { Ready c.now 0 (square_blocks 16 0 c.now) coded.now r.now 16 }
    ensures p_after { p.new
        ≡ square_painted p.old w x y 16 true 0 modes.now (square_blocks 16 0 c.now) }
    ensures first_fit { FirstFit c.now 0 16 }
{
    let right = above_right(&p[..], w, x, y);
    small_blocks(p, w, x, y, right, modes, coded, r, c);
}

// The square in a large mode.
pub(crate) fn large_square(
    p: &mut [u8],
    w: usize,
    x: usize,
    y: usize,
    size: usize,
    mode: u8,
    coded: &[bool; 16],
    r: &[i16; 256],
    c: &[i16],
    from: usize,
)
    requires square { Square (length p.old) w x y size }
    requires size { Size size }
    requires mode_bound { mode < 4 }
    requires ready { Ready c.now from (square_blocks size from c.now) coded.now r.now (size / 4 * (size / 4)) }
    ensures p_after { p.new ≡ square_painted p.old w x y size false mode [] (square_blocks size from c.now) }
    ensures first_fit { FirstFit c.now from (size / 4 * (size / 4)) }
{
    predict(&mut p[..], w, x, y, size, mode);
    add_blocks(p, w, x, y, size / 4, coded, r, c, from);
}
