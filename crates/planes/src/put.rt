// What is predicted, put into the plane.
ghost use Rattle.std.specs.Prelude.{◌≡◌, ◌+◌, ◌<◌, ◌≤◌, length, get_or};
ghost use Rattle.numbers.specs.Runs.{placed};
ghost use Rattle.predict.specs.Predict.{Size, tm_one, dc_of, large_at};
ghost use Rattle.planes.specs.Pieces.{rows_placed, block_copied};
ghost use Rattle.planes.specs.Paint.{edge_of};
ghost use Rattle.planes.specs.Places.{Square, Block};

use crate::edges::{edge, place};
use predict::{Border, large_dc, tm_wide};

// Four samples of b, from its place `from`, into p from the place `at` on.
pub(crate) fn copy_row(p: &mut [u8], at: usize, b: &[u8], from: usize)
    requires { (at + 4 ≤ length p.old) × (from + 4 ≤ length b.now) }
    ensures { p.new ≡ placed p.old at (λ k. get_or b.now (from + k) 0) 4 }
{
    p[at] = b[from];
    p[at + 1] = b[from + 1];
    p[at + 2] = b[from + 2];
    p[at + 3] = b[from + 3];
}

// The sub-block b, whose first sample goes to the place `at`.
pub(crate) fn put_block(p: &mut [u8], w: usize, at: usize, b: &[u8])
    requires block { Block (length p.old) w at }
    requires b_len { length b.now ≡ 16 }
    ensures { p.new ≡ block_copied p.old w at b.now }
{
    copy_row(&mut p[..], at, b, 0);
    copy_row(&mut p[..], at + w, b, 4);
    copy_row(&mut p[..], at + 2 * w, b, 8);
    copy_row(&mut p[..], at + 3 * w, b, 12);
}

// The first n samples of b.
fn put(p: &mut [u8], at: usize, b: &[u8; 16], n: usize)
    requires { (at + n ≤ length p.old) × (n ≤ 16) }
    ensures { p.new ≡ placed p.old at (λ k. get_or b.now k 0) n }
{
    for k in 0..n {
        p[at + k] = b[k];
    }
}

// A row of a square. Each way names its size by a constant, so that the compiler can store all of it at once.
fn put_row(p: &mut [u8], at: usize, b: &[u8; 16], size: usize)
    requires size { Size size }
    requires size_in_bounds { at + size ≤ length p.old }
    ensures { p.new ≡ placed p.old at (λ k. get_or b.now k 0) size }
{
    if size == 16 {
        put(p, at, b, 16);
    } else {
        put(p, at, b, 8);
    }
}

// Three functions stay: the row differs, and a loop over all three would call a closure a row.
// A square whose rows are all b.
fn put_same(p: &mut [u8], w: usize, x: usize, y: usize, size: usize, b: [u8; 16])
    requires square { Square (length p.old) w x y size }
    requires size { Size size }
    ensures { p.new ≡ rows_placed p.old w x y size (λ j k. get_or b k 0) size }
{
    for j in 0..size {
        put_row(&mut p[..], place(y + j, w, x), &b, size);
    }
}

// A square whose columns are all l.
fn put_left(p: &mut [u8], w: usize, x: usize, y: usize, size: usize, l: [u8; 16])
    requires square { Square (length p.old) w x y size }
    requires size { Size size }
    ensures { p.new ≡ rows_placed p.old w x y size (λ j k. get_or l j 0) size }
{
    for j in 0..size {
        let b = [l[j]; 16];
        put_row(&mut p[..], place(y + j, w, x), &b, size);
    }
}

// A square in TM.
fn put_tm(p: &mut [u8], w: usize, x: usize, y: usize, size: usize, e: Border)
    requires square { Square (length p.old) w x y size }
    requires size { Size size }
    ensures { p.new
        ≡ rows_placed p.old w x y size (λ j k. tm_one (get_or e.left j 0) (get_or e.above k 0) e.corner) size }
{
    let above = e.above;
    let left = e.left;
    for j in 0..size {
        let b = tm_wide(left[j], above, e.corner);
        put_row(&mut p[..], place(y + j, w, x), &b, size);
    }
}

// The square in a large mode, as it is predicted.
pub(crate) fn predict(p: &mut [u8], w: usize, x: usize, y: usize, size: usize, mode: u8)
    requires square { Square (length p.old) w x y size }
    requires size { Size size }
    requires mode_bound { mode < 4 }
    ensures { p.new
        ≡ rows_placed p.old w x y size
        (large_at mode (dc_of size (edge_of p.old w x y size)) (edge_of p.old w x y size)) size }
{
    let e = edge(&p[..], w, x, y, size);
    let above = e.above;
    let left = e.left;
    match mode {
        0 => put_same(p, w, x, y, size, [large_dc(size == 16, e); 16]),
        1 => put_tm(p, w, x, y, size, e),
        2 => put_same(p, w, x, y, size, above),
        _ => put_left(p, w, x, y, size, left),
    }
}
