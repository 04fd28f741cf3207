// An edge of one plane, or of two planes at the same place: taken into a block, swept, and put back where anything moved.
ghost use Rattle.std.specs.Prelude.{◌≡◌, ◌+◌, ◌*◌, ◌≤◌, length};
ghost use Rattle.deblock.specs.Deblock.{sweep_of};

use crate::blocks::{columns, copy, rows};
use crate::edges::{Edge, sweep};

// Sixteen positions of an upright edge, and of a level one.
pub(crate) fn upright(p: &mut [u8], at: usize, w: usize, g: Edge)
    requires { (at + 15 * w + 8 ≤ length p.old) × (8 ≤ w) }
    ensures { p.new ≡ sweep_of g at w 1 16 p.old }
{
    let mut t = [0; 128];
    copy(&mut t[..], 0, 8, &p[..], at, w, 16, 8);
    let mut c = columns(&t);
    if sweep(&mut c[..], g) {
        let b = rows(&c);
        copy(&mut p[..], at, w, &b[..], 0, 8, 16, 8);
    }
}

pub(crate) fn level(p: &mut [u8], at: usize, w: usize, g: Edge)
    requires { (at + 7 * w + 16 ≤ length p.old) × (16 ≤ w) }
    ensures { p.new ≡ sweep_of g at 1 w 16 p.old }
{
    let mut t = [0; 128];
    copy(&mut t[..], 0, 16, &p[..], at, w, 8, 16);
    if sweep(&mut t[..], g) {
        copy(&mut p[..], at, w, &t[..], 0, 16, 8, 16);
    }
}

// Eight positions of each of two planes.
pub(crate) fn upright_pair(p: &mut [u8], q: &mut [u8], at: usize, w: usize, g: Edge)
    requires { (at + 7 * w + 8 ≤ length p.old) × (at + 7 * w + 8 ≤ length q.old) × (8 ≤ w) }
    ensures p_after { p.new ≡ sweep_of g at w 1 8 p.old }
    ensures q_after { q.new ≡ sweep_of g at w 1 8 q.old }
{
    let mut t = [0; 128];
    copy(&mut t[..], 0, 8, &p[..], at, w, 8, 8);
    copy(&mut t[..], 64, 8, &q[..], at, w, 8, 8);
    let mut c = columns(&t);
    if sweep(&mut c[..], g) {
        let b = rows(&c);
        copy(&mut p[..], at, w, &b[..], 0, 8, 8, 8);
        copy(&mut q[..], at, w, &b[..], 64, 8, 8, 8);
    }
}

pub(crate) fn level_pair(p: &mut [u8], q: &mut [u8], at: usize, w: usize, g: Edge)
    requires { (at + 7 * w + 8 ≤ length p.old) × (at + 7 * w + 8 ≤ length q.old) × (8 ≤ w) }
    ensures p_after { p.new ≡ sweep_of g at 1 w 8 p.old }
    ensures q_after { q.new ≡ sweep_of g at 1 w 8 q.old }
{
    let mut t = [0; 128];
    copy(&mut t[..], 0, 16, &p[..], at, w, 8, 8);
    copy(&mut t[..], 8, 16, &q[..], at, w, 8, 8);
    if sweep(&mut t[..], g) {
        copy(&mut p[..], at, w, &t[..], 0, 16, 8, 8);
        copy(&mut q[..], at, w, &t[..], 8, 16, 8, 8);
    }
}
