// The edges of one macroblock, and of all in raster order, in a plane p and a plane q beside it: blue and red, which have the same edges,
// go together, and luma goes beside an empty plane.
ghost use Rattle.std.specs.Prelude.{◌≡◌, ◌-◌, ◌*◌, ◌/◌, ◌≤◌, ◌<◌, length};
ghost use Rattle.predict.specs.Predict.{Size};
ghost use Rattle.planes.specs.Places.{Square};
ghost use Rattle.deblock.specs.Deblock.{outer_edge, inner_edge_of, vertical_edges, horizontal_edges, inner_at, inners_of, square_of, raster_of};
ghost use Rattle.deblock.specs.Located.{Upright, Level, Beside, WholePlane};

use crate::edges::Edge;
use crate::sweeps::{level, level_pair, upright, upright_pair};
use filter::strengths::Strength;
use lent::macroblocks::read_strength;

// What the kernel is told of a macroblock's own edges, and of the inner ones.
fn outer_of(simple: bool, t: Strength) -> Edge
    requires { t.limit ≤ 189 }
    ensures { result ≡ outer_edge simple t }
{
    Edge {
        simple,
        outer: true,
        limit: t.limit + 4,
        inner: t.inner,
        threshold: t.threshold,
    }
}

fn inner_of(simple: bool, t: Strength) -> Edge
    ensures { result ≡ inner_edge_of simple t }
{
    Edge {
        simple,
        outer: false,
        limit: t.limit,
        inner: t.inner,
        threshold: t.threshold,
    }
}

// The edge left of column x, in n rows from y on.
fn vertical(p: &mut [u8], q: &mut [u8], w: usize, x: usize, y: usize, n: usize, g: Edge)
    requires upright { Upright (length p.old) w x y n }
    requires beside { Beside n (length p.old) (length q.old) }
    ensures p_after { p.new ≡ vertical_edges g w x y n p.old }
    ensures q_after { q.new ≡ vertical_edges g w x y n q.old }
{
    let at = y * w + x - 4;
    if n == 16 {
        upright(&mut p[..], at, w, g);
    } else {
        upright_pair(&mut p[..], &mut q[..], at, w, g);
    }
}

// The edge above row y, in n columns from x on.
fn horizontal(p: &mut [u8], q: &mut [u8], w: usize, x: usize, y: usize, n: usize, g: Edge)
    requires level { Level (length p.old) w x y n }
    requires beside { Beside n (length p.old) (length q.old) }
    ensures p_after { p.new ≡ horizontal_edges g w x y n p.old }
    ensures q_after { q.new ≡ horizontal_edges g w x y n q.old }
{
    let at = (y - 4) * w + x;
    if n == 16 {
        level(&mut p[..], at, w, g);
    } else {
        level_pair(&mut p[..], &mut q[..], at, w, g);
    }
}

// The jth inner edge of the n by n square at column x, row y: a vertical one, or a horizontal one.
fn inner_edge(
    p: &mut [u8],
    q: &mut [u8],
    w: usize,
    x: usize,
    y: usize,
    n: usize,
    j: usize,
    upright: bool,
    g: Edge,
)
    requires square { Square (length p.old) w x y n }
    requires beside { Beside n (length p.old) (length q.old) }
    requires j_bound { j < n / 4 - 1 }
    ensures p_after { p.new ≡ inner_at upright g w x y n j p.old }
    ensures q_after { q.new ≡ inner_at upright g w x y n j q.old }
{
    if upright {
        vertical(&mut p[..], &mut q[..], w, x + 4 * j + 4, y, n, g);
    } else {
        horizontal(&mut p[..], &mut q[..], w, x, y + 4 * j + 4, n, g);
    }
}

// All of them of one direction.
fn inners(
    p: &mut [u8],
    q: &mut [u8],
    w: usize,
    x: usize,
    y: usize,
    n: usize,
    upright: bool,
    g: Edge,
)
    requires square { Square (length p.old) w x y n }
    requires beside { Beside n (length p.old) (length q.old) }
    ensures p_after { p.new ≡ inners_of upright g w x y n p.old }
    ensures q_after { q.new ≡ inners_of upright g w x y n q.old }
{
    for j in 0..n / 4 - 1 {
        inner_edge(&mut p[..], &mut q[..], w, x, y, n, j, upright, g);
    }
}

// One macroblock's square in each plane.
fn square(
    p: &mut [u8],
    q: &mut [u8],
    w: usize,
    n: usize,
    column: usize,
    row: usize,
    simple: bool,
    t: Strength,
)
    requires square { Square (length p.old) w (column * n) (row * n) n }
    requires size { Size n }
    requires beside { Beside n (length p.old) (length q.old) }
    requires limit_bound { t.limit ≤ 189 }
    ensures p_after { p.new ≡ square_of simple t w n column row p.old }
    ensures q_after { q.new ≡ square_of simple t w n column row q.old }
{
    let x = column * n;
    let y = row * n;
    let outer = outer_of(simple, t);
    let inner = inner_of(simple, t);
    let inside = t.inside == 1;
    if column != 0 {
        vertical(&mut p[..], &mut q[..], w, x, y, n, outer);
    }
    if inside {
        inners(&mut p[..], &mut q[..], w, x, y, n, true, inner);
    }
    if row != 0 {
        horizontal(&mut p[..], &mut q[..], w, x, y, n, outer);
    }
    if inside {
        inners(&mut p[..], &mut q[..], w, x, y, n, false, inner);
    }
}

// Those of the planes, n by n, in raster order.
pub(crate) fn squares(
    p: &mut [u8],
    q: &mut [u8],
    n: usize,
    wide: usize,
    high: usize,
    simple: bool,
    strengths: &[u8],
)
    requires whole_plane { WholePlane (length p.old) n wide high strengths.now }
    requires beside { Beside n (length p.old) (length q.old) }
    ensures p_after { p.new ≡ raster_of simple strengths.now n wide (wide * high) p.old }
    ensures q_after { q.new ≡ raster_of simple strengths.now n wide (wide * high) q.old }
{
    let w = wide * n;
    let m = wide * high;
    for k in 0..m {
        let found = read_strength(strengths, k);
        let t = found.strength;
        if t.limit != 0 {
            square(&mut p[..], &mut q[..], w, n, k % wide, k / wide, simple, t);
        }
    }
}
