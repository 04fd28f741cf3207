// The residual, added to what stands in the plane (RFC 6386, section 14.5).
ghost use Rattle.std.specs.Prelude.{◌≡◌, cond, ◌+◌, ◌<◌, ◌≤◌, pos, negsuc, ◌+ℤ◌, length};
ghost use Rattle.numbers.specs.Clamp.{clip_z};
ghost use Rattle.numbers.specs.In.{Each};
ghost use Rattle.numbers.specs.Lists.{Bytes};
ghost use Rattle.transform.specs.Transform.{grid_row};
ghost use Rattle.planes.specs.Pieces.{row_sums, row_added, lane_added, mean_of, mean_added, Residual};
ghost use Rattle.planes.specs.Places.{Block};

use crate::put::copy_row;
use predict::clipped;

// A sample, and its residual: their sum fits sixteen bits.
fn sum(p: u8, r: i16) -> u8
    requires { Residual r }
    ensures { result ≡ clip_z (pos p +ℤ r) }
{
    clipped(i16::from(p) + r)
}

// Four of them, side by side: all are read before one is stored.
fn sums(p: &[u8], at: usize, r: [i16; 4]) -> [u8; 4]
    requires at_in_bounds { at + 4 ≤ length p.now }
    requires each { Each (negsuc 32512) (pos 32512) r }
    ensures { result ≡ row_sums p.now at r }
{
    [
        sum(p[at], r[0]),
        sum(p[at + 1], r[1]),
        sum(p[at + 2], r[2]),
        sum(p[at + 3], r[3]),
    ]
}

fn add_row(p: &mut [u8], at: usize, r: [i16; 4])
    requires at_in_bounds { at + 4 ≤ length p.old }
    requires each { Each (negsuc 32512) (pos 32512) r }
    ensures { p.new ≡ row_added p.old at r }
{
    let b = sums(&p[..], at, r);
    copy_row(p, at, &b[..], 0);
}

// Four residuals side by side: a row of a block.
fn lane_row(r: &[i16; 256], from: usize) -> [i16; 4]
    requires { from + 4 ≤ 256 }
    ensures { result ≡ grid_row r.now from }
{
    [r[from], r[from + 1], r[from + 2], r[from + 3]]
}

// The residual of block i.
fn add_lane(p: &mut [u8], w: usize, at: usize, r: &[i16; 256], i: usize)
    requires block { Block (length p.old) w at }
    requires i_bound { i < 16 }
    requires each { Each (negsuc 32512) (pos 32512) r.now }
    ensures { p.new ≡ lane_added p.old w at r.now i }
{
    add_row(&mut p[..], at, lane_row(r, 4 * i));
    add_row(&mut p[..], at + w, lane_row(r, 64 + 4 * i));
    add_row(&mut p[..], at + 2 * w, lane_row(r, 128 + 4 * i));
    add_row(&mut p[..], at + 3 * w, lane_row(r, 192 + 4 * i));
}

// The residual of a block whose coefficients but the first are 0: the same for each sample.
fn mean(dc: i16) -> i16
    ensures { (result ≡ mean_of dc) × Residual result }
{
    ((i32::from(dc) + 4) >> 3) as i16
}

fn add_mean(p: &mut [u8], w: usize, at: usize, dc: i16)
    requires { Block (length p.old) w at }
    ensures { p.new ≡ mean_added p.old w at dc }
{
    let v = [mean(dc); 4];
    add_row(&mut p[..], at, v);
    add_row(&mut p[..], at + w, v);
    add_row(&mut p[..], at + 2 * w, v);
    add_row(&mut p[..], at + 3 * w, v);
}

// The residual of block i, whose first coefficient is dc: out of r where it is coded. Where there is none, nothing is touched.
pub(crate) fn add(p: &mut [u8], w: usize, at: usize, coded: bool, r: &[i16; 256], i: usize, dc: i16)
    requires block { Block (length p.old) w at }
    requires i_bound { i < 16 }
    requires each { Each (negsuc 32512) (pos 32512) r.now }
    ensures p_after { p.new
        ≡ cond coded (lane_added p.old w at r.now i) (mean_added p.old w at dc) }
    ensures bytes { Bytes p.old }
{
    if coded {
        add_lane(p, w, at, r, i);
    } else if dc != 0 {
        add_mean(p, w, at, dc);
    }
}
