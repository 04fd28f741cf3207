// The residuals of 8 or 16 blocks (RFC 6386, section 14.4), all at once where each coefficient leaves room for sixteen bits. Number k of
// block i of n stands at place n * k + i, so that the compiler can take eight blocks together.
ghost use Rattle.std.specs.Prelude.{◌≡◌, false, ◌+◌, ◌*◌, ◌/◌, ◌%◌, ◌<◌, ◌≤◌, pos, negsuc, length};
ghost use Rattle.numbers.specs.In.{Each};
ghost use Rattle.numbers.specs.Stores.{stored_at};
ghost use Rattle.numbers.specs.Tables.{all_below};
ghost use Rattle.transform.specs.Transform.{at, cell, grid_of, result_of};
ghost use Rattle.transform.specs.Pieces.{CoefficientsIn, is_small, lane_of, lane_row, turned_at, alone_at, Blocks};
ghost use Rattle.transform.specs.Lanes.{known_length_of, short_residual, row_place, turned_to, Residuals, residuals_of};

use crate::samples;
use crate::short::{Short, first_pass, second_pass};

// Whether so many coefficients are those of 8 or of 16 blocks.
fn known_length(len: usize) -> bool
    ensures { result ≡ known_length_of len }
{
    (len == 128) | (len == 256)
}

// Whether 64 more are small, behind those that were looked at before.
fn more_small(c: &[i16], from: usize, before: bool) -> bool
    requires from_in_bounds { from + 64 ≤ length c.now }
    requires before_value { before ≡ all_below from (λ k. is_small (at c.now k)) }
    ensures { result ≡ all_below (from + 64) (λ k. is_small (at c.now k)) }
{
    let mut small = before;
    for k in 0..64usize {
        let x = c[from + k];
        small = (-2048 <= x) & (x <= 2047) & small;
    }
    small
}

fn each_small(c: &[i16]) -> bool
    requires { Blocks (length c.now) }
    ensures { result ≡ all_below (length c.now) (λ k. is_small (at c.now k)) }
{
    let mut small = true;
    for i in 0..c.len() / 64 {
        small = more_small(c, 64 * i, small);
    }
    small
}

fn lane_row(c: &[i16], n: usize, from: usize) -> [i16; 4]
    requires { (from + 3 * n < length c.now) × (n ≤ 16) }
    ensures { result ≡ lane_row n c.now from }
{
    [c[from], c[from + n], c[from + 2 * n], c[from + 3 * n]]
}

// Block i of n.
fn lane(c: &[i16], n: usize, i: usize) -> Short
    requires { (16 * n ≡ length c.now) × (n ≤ 16) × (i < n) }
    ensures { result ≡ grid_of (lane_of n c.now i) }
{
    [
        lane_row(c, n, i),
        lane_row(c, n, i + 4 * n),
        lane_row(c, n, i + 8 * n),
        lane_row(c, n, i + 12 * n),
    ]
}

// The results of block i into its places: an eighth of what the passes leave, rounded down.
fn put_lane(t: &mut [i16; 256], i: usize, g: Short)
    requires { i < 16 }
    ensures { t.new ≡ stored_at t.old (row_place i) (λ k. result_of false (cell g (k / 4) (k % 4))) 16 }
{
    for k in 0..16usize {
        t[64 * (k / 4) + 4 * i + k % 4] = g[k / 4][k % 4] >> 3;
    }
}

// Each of n blocks through the transform.
fn turn(c: &[i16], n: usize, t: &mut [i16; 256])
    requires n_value { (16 * n ≡ length c.now) × (n ≤ 16) }
    requires each { Each (negsuc 2047) (pos 2047) c.now }
    ensures { t.new ≡ turned_to (turned_at n c.now) t.old n }
{
    for i in 0..n {
        put_lane(t, i, second_pass(first_pass(lane(c, n, i))));
    }
}

// ---- where a coefficient is not small: one block after the other. No encoder makes such a square.
fn block(c: &[i16], n: usize, i: usize) -> [i32; 16]
    requires { (16 * n ≡ length c.now) × (n ≤ 16) × (i < n) }
    ensures { (result ≡ lane_of n c.now i) × CoefficientsIn (lane_of n c.now i) }
{
    let mut b = [0; 16];
    for k in 0..16usize {
        b[k] = c[n * k + i] as i32;
    }
    b
}

// The nearest to v that leaves room for a sample in sixteen bits: added to one and clipped, both give the same.
fn nearest(v: i32) -> i16
    ensures { result ≡ short_residual v }
{
    if v < -32513 {
        return -32513;
    }
    if 32512 < v {
        return 32512;
    }
    v as i16
}

// The residual of block i of n into its places.
fn put_alone(c: &[i16], n: usize, i: usize, t: &mut [i16; 256])
    requires { (16 * n ≡ length c.now) × (n ≤ 16) × (i < n) }
    ensures { t.new ≡ stored_at t.old (row_place i) (alone_at n c.now i) 16 }
{
    let b = block(c, n, i);
    let s = samples(&b, false, false);
    for k in 0..16usize {
        t[64 * (k / 4) + 4 * i + k % 4] = nearest(s[k]);
    }
}

fn turn_alone(c: &[i16], n: usize, t: &mut [i16; 256])
    requires { (16 * n ≡ length c.now) × (n ≤ 16) }
    ensures { t.new ≡ turned_to (alone_at n c.now) t.old n }
{
    for i in 0..n {
        put_alone(c, n, i, t);
    }
}

// The residuals of 8 or 16 blocks: number k of block i of n stands at n * k + i in `c`, and the residual of block i at row j, column x goes
// to 64 * j + 4 * i + x in `values`, so that the four of a row stand together. False, and `values` as it was, where there are not so many blocks.
pub fn residuals(c: &[i16], values: &mut [i16; 256]) -> bool
    ensures { ◌≡◌ {A = Residuals} (record { fit = result; values = values.new })
        (residuals_of c.now values.old) }
{
    if !known_length(c.len()) {
        return false;
    }
    if each_small(c) {
        turn(c, c.len() / 16, values);
    } else {
        turn_alone(c, c.len() / 16, values);
    }
    true
}
