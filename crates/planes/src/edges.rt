// What lies around a square or a sub-block of a plane (RFC 6386, sections 12.2 and 12.3). Outside the plane 127 lies above, the corner
// too, and 129 to the left.
ghost use Rattle.std.specs.Prelude.{◌≡◌, false, ◌+◌, ◌*◌, ◌<◌, ◌≤◌, length};
ghost use Rattle.planes.specs.Paint.{near_of, four_above_of, four_left_of, first_above_of, first_left_of, edge_of, above_right_of, around_of, block_above_right_of};
ghost use Rattle.planes.specs.Places.{Square, Reach, Lies, Over};

use predict::Border;

// What lies above the plane, the corner too, and left of it.
const ABOVE: u8 = 127;

const LEFT: u8 = 129;

// Where column x of row y lies, in rows of w samples.
pub(crate) fn place(y: usize, w: usize, x: usize) -> usize
    requires { (y ≤ 16384) × (w ≤ 16384) × (x ≤ 16384) }
    ensures { result ≡ y * w + x }
{
    y * w + x
}

// The sample at column x of row y, both counted from 1: at 0 they lie outside.
fn near(p: &[u8], w: usize, x: usize, y: usize) -> u8
    requires { Reach (length p.now) w x y }
    ensures { result ≡ near_of p.now w x y }
{
    if y == 0 {
        return ABOVE;
    }
    if x == 0 {
        return LEFT;
    }
    p[place(y - 1, w, x - 1)]
}

// A sub-block by its column, its row and the place of its first sample.
#[derive(Clone, Copy, Debug, PartialEq, Eq)]
pub(crate) struct Spot {
    pub x: usize,
    pub y: usize,
    pub at: usize,
}

// The corner of a sub-block, the four samples above it, and the four to its left. All are reached from its first sample.
fn corner(p: &[u8], w: usize, s: Spot) -> u8
    requires { Lies (length p.now) w s }
    ensures { result ≡ near_of p.now w s.x s.y }
{
    if s.y == 0 {
        return ABOVE;
    }
    if s.x == 0 {
        return LEFT;
    }
    let at = s.at - w - 1;
    p[at]
}

fn four_above(p: &[u8], w: usize, s: Spot) -> [u8; 4]
    requires { Over (length p.now) w s }
    ensures { result ≡ four_above_of p.now w s.x s.y }
{
    if s.y == 0 {
        return [ABOVE; 4];
    }
    let at = s.at - w;
    [p[at], p[at + 1], p[at + 2], p[at + 3]]
}

fn four_left(p: &[u8], w: usize, s: Spot) -> [u8; 4]
    requires { Lies (length p.now) w s }
    ensures { result ≡ four_left_of p.now w s.x s.y }
{
    if s.x == 0 {
        return [LEFT; 4];
    }
    let at = s.at - 1;
    [p[at], p[at + w], p[at + 2 * w], p[at + 3 * w]]
}

// The row above a square, and the column left of it.
fn first_above(p: &[u8], w: usize, x: usize, y: usize, size: usize) -> [u8; 16]
    requires square { Square (length p.now) w x y size }
    requires size_bound { size ≤ 16 }
    ensures { result ≡ first_above_of p.now w x y size }
{
    let mut e = [0u8; 16];
    for k in 0..size {
        e[k] = near(p, w, x + 1 + k, y);
    }
    e
}

fn first_left(p: &[u8], w: usize, x: usize, y: usize, size: usize) -> [u8; 16]
    requires square { Square (length p.now) w x y size }
    requires size_bound { size ≤ 16 }
    ensures { result ≡ first_left_of p.now w x y size }
{
    let mut e = [0u8; 16];
    for k in 0..size {
        e[k] = near(p, w, x, y + 1 + k);
    }
    e
}

// What lies around a square.
pub(crate) fn edge(p: &[u8], w: usize, x: usize, y: usize, size: usize) -> Border
    requires square { Square (length p.now) w x y size }
    requires size_bound { size ≤ 16 }
    ensures { result ≡ edge_of p.now w x y size }
{
    let above = first_above(p, w, x, y, size);
    let left = first_left(p, w, x, y, size);
    let corner = near(p, w, x, y);
    Border {
        above,
        left,
        corner,
        above_inside: 0 < y,
        left_inside: 0 < x,
    }
}

// The four samples above and right of a macroblock; past the last column the last sample above, four times.
pub(crate) fn above_right(p: &[u8], w: usize, x: usize, y: usize) -> [u8; 4]
    requires square { Square (length p.now) w x y 16 }
    requires x_bound { x + 16 < w → x + 20 ≤ w }
    ensures { result ≡ above_right_of p.now w x y }
{
    if x + 16 == w {
        return [near(p, w, w, y); 4];
    }
    let s = Spot {
        x: x + 16,
        y,
        at: place(y, w, x + 16),
    };
    four_above(p, w, s)
}

// The four samples above and right of a sub-block: those of the macroblock for its last column.
fn block_above_right(p: &[u8], w: usize, s: Spot, last: bool, right: [u8; 4]) -> [u8; 4]
    requires lies { Lies (length p.now) w s }
    requires x_bound { last ≡ false → s.x + 8 ≤ w }
    ensures { result ≡ block_above_right_of p.now w s.x s.y last right }
{
    if last {
        return right;
    }
    let next = Spot {
        x: s.x + 4,
        y: s.y,
        at: s.at + 4,
    };
    four_above(p, w, next)
}

// The thirteen samples around a sub-block.
pub(crate) fn around(p: &[u8], w: usize, s: Spot, last: bool, right: [u8; 4]) -> [u8; 13]
    requires lies { Lies (length p.now) w s }
    requires x_bound { last ≡ false → s.x + 8 ≤ w }
    ensures { result ≡ around_of p.now w s.x s.y (block_above_right_of p.now w s.x s.y last right) }
{
    let l = four_left(p, w, s);
    let c = corner(p, w, s);
    let a = four_above(p, w, s);
    let r = block_above_right(p, w, s, last, right);
    [
        l[3], l[2], l[1], l[0], c, a[0], a[1], a[2], a[3], r[0], r[1], r[2], r[3],
    ]
}
