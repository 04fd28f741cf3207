// Prediction of a block from the samples around it (RFC 6386, sections 12.2 and 12.3).
#![tactic(auto)]

ghost use Rattle.std.specs.Prelude.{◌≡◌, cond, ◌<◌, ◌≤◌, ◌+◌, ◌*◌};
ghost use Rattle.numbers.specs.Clamp.{clip_z};
ghost use Rattle.predict.specs.Predict.{Size, at, mean2, mean3, two, tm_one, tm_wide_of, dc_block_of, tm_block_of, small_block_of, sum_of_first, dc_of};
ghost use Rattle.predict.specs.Pieces.{Count, mean_over, joined_of, tm_row_of, tm_of, Eleven, stretched_of, three_from_of, twos_of, threes_of, both_of, row_picked, picked_of};

// What lies around a macroblock's square: the row above, the column to the left (of both the first 8 or 16), the corner, and
// whether the row above and the column to the left are inside the picture.
#[derive(Clone, Copy, Debug, PartialEq, Eq)]
pub struct Border {
    pub above: [u8; 16],
    pub left: [u8; 16],
    pub corner: u8,
    pub above_inside: bool,
    pub left_inside: bool,
}

// ---- a number as a sample
// One bound after the other, so that the compiler can take several samples at once.
pub fn clipped(v: i16) -> u8
    ensures { result ≡ clip_z v }
{
    v.max(0).min(255) as u8
}

// ---- means, rounded
fn mean2(x: u8, y: u8) -> u8
    ensures { result ≡ mean2 x y }
{
    ((u32::from(x) + u32::from(y) + 1) / 2) as u8
}

fn mean3(x: u8, y: u8, z: u8) -> u8
    ensures { result ≡ mean3 x y z }
{
    ((u32::from(x) + 2 * u32::from(y) + u32::from(z) + 2) / 4) as u8
}

// Of `count` samples with the sum `total`. Each way divides by a constant, which is a shift.
fn mean(total: u32, count: usize) -> u8
    requires count { Count count }
    requires total_bound { total ≤ 255 * count }
    ensures { result ≡ mean_over total count }
{
    if count == 8 {
        ((total + 4) / 8) as u8
    } else if count == 16 {
        ((total + 8) / 16) as u8
    } else {
        ((total + 16) / 32) as u8
    }
}

// ---- blocks of four rows
fn joined(w: [u8; 4], x: [u8; 4], y: [u8; 4], z: [u8; 4]) -> [u8; 16]
    ensures { result ≡ joined_of w x y z }
{
    [
        w[0], w[1], w[2], w[3], x[0], x[1], x[2], x[3], y[0], y[1], y[2], y[3], z[0], z[1], z[2],
        z[3],
    ]
}

// TM: the sample on the left, moved by what the one above differs from the corner.
fn tm_sample(l: u8, a: u8, corner: u8) -> u8
    ensures { result ≡ tm_one l a corner }
{
    clipped(i16::from(l) + i16::from(a) - i16::from(corner))
}

// The same for a row with l on its left and a above it, and for a block of four rows.
fn tm_row(l: u8, a: [u8; 4], corner: u8) -> [u8; 4]
    ensures { result ≡ tm_row_of l a corner }
{
    [
        tm_sample(l, a[0], corner),
        tm_sample(l, a[1], corner),
        tm_sample(l, a[2], corner),
        tm_sample(l, a[3], corner),
    ]
}

fn tm_samples(l: [u8; 4], a: [u8; 4], corner: u8) -> [u8; 16]
    ensures { result ≡ tm_of l a corner }
{
    let w = tm_row(l[0], a, corner);
    let x = tm_row(l[1], a, corner);
    let y = tm_row(l[2], a, corner);
    let z = tm_row(l[3], a, corner);
    joined(w, x, y, z)
}

// ---- section 12.3: a sub-block
// The sum of four samples side by side.
fn total(e: [u8; 13], i: usize) -> u32
    requires { i < 10 }
    ensures { (result ≡ at e i + at e (i + 1) + at e (i + 2) + at e (i + 3)) × (result ≤ 1020) }
{
    u32::from(e[i]) + u32::from(e[i + 1]) + u32::from(e[i + 2]) + u32::from(e[i + 3])
}

#[tactic(auto, unfolding(crate::specs::Predict::dc_block_of))]
fn dc_block(e: [u8; 13]) -> [u8; 16]
    ensures { result ≡ dc_block_of e }
{
    [mean(total(e, 0) + total(e, 5), 8); 16]
}

#[tactic(auto, using(crate::specs::PredictLaws::tm_edge))]
fn tm_block(e: [u8; 13]) -> [u8; 16]
    ensures { result ≡ tm_block_of e }
{
    tm_samples([e[3], e[2], e[1], e[0]], [e[5], e[6], e[7], e[8]], e[4])
}

// The edge with its first and its last sample once more: at an end they stand for the one past it.
fn stretched(e: [u8; 13]) -> [u8; 15]
    ensures { result ≡ stretched_of e }
{
    [
        e[0], e[0], e[1], e[2], e[3], e[4], e[5], e[6], e[7], e[8], e[9], e[10], e[11], e[12],
        e[12],
    ]
}

// The mean of two from place i of it on, and of three.
fn two(f: [u8; 15], i: usize) -> u8
    requires { i < 14 }
    ensures { result ≡ two f i }
{
    mean2(f[i], f[i + 1])
}

fn three(f: [u8; 15], i: usize) -> u8
    requires { i < 13 }
    ensures { result ≡ three_from_of f i }
{
    mean3(f[i], f[i + 1], f[i + 2])
}

// Four of the first kind and seven of the second, as many as a mode has; what is not picked of them costs nothing.
fn twos(f: [u8; 15], i: usize) -> [u8; 4]
    requires { i < 11 }
    ensures { result ≡ twos_of f i }
{
    [two(f, i), two(f, i + 1), two(f, i + 2), two(f, i + 3)]
}

fn threes(f: [u8; 15], i: usize) -> [u8; 7]
    requires { i < 7 }
    ensures { result ≡ threes_of f i }
{
    [
        three(f, i),
        three(f, i + 1),
        three(f, i + 2),
        three(f, i + 3),
        three(f, i + 4),
        three(f, i + 5),
        three(f, i + 6),
    ]
}

fn both(d: [u8; 4], t: [u8; 7]) -> [u8; 11]
    ensures { result ≡ both_of d t }
{
    [
        d[0], d[1], d[2], d[3], t[0], t[1], t[2], t[3], t[4], t[5], t[6],
    ]
}

// Four of the eleven, by their places from number k on, and all sixteen: row by row, so that the compiler stores a row at once.
fn pick_row(m: [u8; 11], places: [u8; 16], k: usize) -> [u8; 4]
    requires k_bound { k < 13 }
    requires eleven { Eleven places }
    ensures { result ≡ row_picked m places k }
{
    [
        m[usize::from(places[k])],
        m[usize::from(places[k + 1])],
        m[usize::from(places[k + 2])],
        m[usize::from(places[k + 3])],
    ]
}

fn pick(m: [u8; 11], places: [u8; 16]) -> [u8; 16]
    requires { Eleven places }
    ensures { result ≡ picked_of m places }
{
    let w = pick_row(m, places, 0);
    let x = pick_row(m, places, 4);
    let y = pick_row(m, places, 8);
    let z = pick_row(m, places, 12);
    joined(w, x, y, z)
}

// Which of a mode's eleven stands where: 0 to 3 are the means of two, 4 to 10 those of three.
const VE: [u8; 16] = [4, 5, 6, 7, 4, 5, 6, 7, 4, 5, 6, 7, 4, 5, 6, 7];

const HE: [u8; 16] = [7, 7, 7, 7, 6, 6, 6, 6, 5, 5, 5, 5, 4, 4, 4, 4];

const RD: [u8; 16] = [7, 8, 9, 10, 6, 7, 8, 9, 5, 6, 7, 8, 4, 5, 6, 7];

const VR: [u8; 16] = [0, 1, 2, 3, 6, 7, 8, 9, 5, 0, 1, 2, 4, 6, 7, 8];

const LD: [u8; 16] = [4, 5, 6, 7, 5, 6, 7, 8, 6, 7, 8, 9, 7, 8, 9, 10];

const VL: [u8; 16] = [0, 1, 2, 3, 4, 5, 6, 7, 1, 2, 3, 8, 5, 6, 7, 9];

const HD: [u8; 16] = [3, 7, 8, 9, 2, 6, 3, 7, 1, 5, 2, 6, 0, 4, 1, 5];

const HU: [u8; 16] = [3, 6, 2, 5, 2, 5, 1, 4, 1, 4, 0, 0, 0, 0, 0, 0];

// The sixteen samples of a sub-block in a small mode.
pub fn small_block(mode: u8, e: [u8; 13]) -> [u8; 16]
    ensures { result ≡ small_block_of mode e }
{
    let f = stretched(e);
    match mode {
        0 => dc_block(e),
        1 => tm_block(e),
        2 => pick(both(twos(f, 0), threes(f, 5)), VE),
        3 => pick(both(twos(f, 0), threes(f, 0)), HE),
        4 => pick(both(twos(f, 0), threes(f, 1)), RD),
        5 => pick(both(twos(f, 5), threes(f, 2)), VR),
        6 => pick(both(twos(f, 0), threes(f, 6)), LD),
        7 => pick(both(twos(f, 6), threes(f, 6)), VL),
        8 => pick(both(twos(f, 1), threes(f, 1)), HD),
        _ => pick(both(twos(f, 0), threes(f, 0)), HU),
    }
}

// ---- section 12.2: a square
// The sum of the first `size`.
#[tactic(auto, using(crate::specs::PredictLaws::size_le), unfolding(crate::specs::Predict::sum_of_first))]
fn sum(l: [u8; 16], size: usize) -> u32
    requires { Size size }
    ensures { (result ≡ sum_of_first l size) × (result ≤ 255 * size) }
{
    let mut total = 0;
    for i in 0..size {
        total += u32::from(l[i]);
    }
    total
}

// The mean of what is inside.
#[tactic(auto, using(crate::specs::PredictLaws::size_le, crate::specs::PredictLaws::count_twice), unfolding(crate::specs::Predict::dc_of))]
fn inside_mean(size: usize, e: Border) -> u8
    requires { Size size }
    ensures { result ≡ dc_of size e }
{
    let above = e.above;
    let left = e.left;
    if e.above_inside {
        if e.left_inside {
            mean(sum(above, size) + sum(left, size), size + size)
        } else {
            mean(sum(above, size), size)
        }
    } else if e.left_inside {
        mean(sum(left, size), size)
    } else {
        128
    }
}

// Large DC of a square, 16 wide in luma and 8 in chroma: once a macroblock.
pub fn large_dc(luma: bool, e: Border) -> u8
    ensures { result ≡ dc_of (cond luma 16 8) e }
{
    if luma {
        inside_mean(16, e)
    } else {
        inside_mean(8, e)
    }
}

// A row of a square in TM, with l on its left and a above it.
pub fn tm_wide(l: u8, a: [u8; 16], corner: u8) -> [u8; 16]
    ensures { result ≡ tm_wide_of l a corner }
{
    let mut b = [0u8; 16];
    for k in 0..16usize {
        b[k] = tm_sample(l, a[k], corner);
    }
    b
}
