// The kernel's rules without branches, in signed bytes: a sample less 128 is one, and a sum that is taken into their range is one
// instruction for sixteen. Every way is taken and one is chosen, so that the compiler can take many positions side by side.
ghost use Rattle.std.specs.Prelude.{◌≡◌, cond, ◌≤◌, pos, negsuc, ◌+ℤ◌, ◌-ℤ◌};
ghost use Rattle.std.specs.Int.Signed.{shr_z};
ghost use Rattle.numbers.specs.In.{In};
ghost use Rattle.numbers.specs.Clamp.{clip_z, signed_byte_z};
ghost use Rattle.filter.specs.Kernel.{samples_across, across, tapped, part, sides, no_steps, common_steps_of, macroblock_steps_of, inner_steps_of, moved_of};
ghost use Rattle.straight.specs.Straight.{straight_of};

use crate::limits::high_variance;
use filter::steps::signed_byte;

fn lowered(x: u8) -> i8
    ensures value { result ≡ pos x -ℤ pos 128 }
    ensures fact { In (negsuc 127) (pos 127) result }
{
    (i16::from(x) - 128) as i8
}

fn lifted(x: i8) -> u8
    ensures { pos result ≡ x +ℤ pos 128 }
{
    (i16::from(x) + 128) as u8
}

// These stay: the kit's `saturating_add` and `saturating_sub` make several tests, where the compiler makes one instruction of the range.
fn plus(a: i8, b: i8) -> i8
    ensures { result ≡ signed_byte_z (a +ℤ b) }
{
    signed_byte(i16::from(a) + i16::from(b)) as i8
}

fn minus(a: i8, b: i8) -> i8
    ensures { result ≡ signed_byte_z (a -ℤ b) }
{
    signed_byte(i16::from(a) - i16::from(b)) as i8
}

fn only(on: bool, a: i8) -> i8
    ensures { result ≡ cond on a (pos 0) }
{
    if on { a } else { 0 }
}

// An eighth of a and k, and `parts` in 128 of w, rounded.
fn eighth(a: i8, k: i8) -> i8
    ensures { result ≡ shr_z (signed_byte_z (a +ℤ k)) 8 }
{
    plus(a, k) >> 3
}

fn part(parts: u8, w: i8) -> i8
    requires { parts ≤ 27 }
    ensures { result ≡ part parts w }
{
    ((i16::from(parts) * i16::from(w) + 63) >> 7) as i8
}

// The outer taps.
fn taps(e: &[u8; 8]) -> i8
    ensures { result ≡ signed_byte_z ((samples_across e.now).p1 -ℤ (samples_across e.now).q1) }
{
    minus(lowered(e[2]), lowered(e[5]))
}

// Three times the step across the edge and c, as a signed byte: one step after the other, since what is beyond the range stays beyond it.
fn pull(e: &[u8; 8], c: i8) -> i8
    ensures { result ≡ signed_byte_z (across (samples_across e.now) +ℤ c) }
{
    let d = minus(lowered(e[4]), lowered(e[3]));
    plus(plus(plus(c, d), d), d)
}

// A sample that stays, one moved by s, and one moved by s the other way.
fn still(x: u8) -> u8
    ensures { result ≡ clip_z (pos x +ℤ pos 0) }
{
    x
}

fn raised(x: u8, s: i8) -> u8
    ensures { result ≡ clip_z (pos x +ℤ s) }
{
    lifted(plus(lowered(x), s))
}

fn taken(x: u8, s: i8) -> u8
    ensures { result ≡ clip_z (pos x -ℤ s) }
{
    lifted(minus(lowered(x), s))
}

// Two samples on either side moved, those at the edge by p0 and q0.
fn moved(e: &[u8; 8], next: i8, p0: i8, q0: i8) -> [u8; 8]
    ensures { result ≡ moved_of e.now (sides (pos 0) next p0 q0 next (pos 0)) }
{
    [
        still(e[0]),
        still(e[1]),
        raised(e[2], next),
        raised(e[3], p0),
        taken(e[4], q0),
        taken(e[5], next),
        still(e[6]),
        still(e[7]),
    ]
}

// What the simple filter does, and the normal one at a macroblock's edge and at an inner edge. Where no rule acts, every step is 0.
fn simply(e: &[u8; 8], acts: bool) -> [u8; 8]
    ensures { result ≡ moved_of e.now (cond acts (common_steps_of (tapped (samples_across e.now))) no_steps) }
{
    let a = only(acts, pull(e, taps(e)));
    moved(e, 0, eighth(a, 3), eighth(a, 4))
}

fn outer(e: &[u8; 8], high: bool, acts: bool) -> [u8; 8]
    ensures { result ≡ moved_of e.now (cond acts (cond high (common_steps_of (tapped (samples_across e.now)))
        (macroblock_steps_of (signed_byte_z (tapped (samples_across e.now))))) no_steps) }
{
    let w = only(acts, pull(e, taps(e)));
    let a = only(high, w);
    let b = only(!high, w);
    let near = part(27, b);
    let next = part(18, b);
    let far = part(9, b);
    [
        still(e[0]),
        raised(e[1], far),
        raised(e[2], next),
        raised(e[3], eighth(a, 3) + near),
        taken(e[4], eighth(a, 4) + near),
        taken(e[5], next),
        taken(e[6], far),
        still(e[7]),
    ]
}

fn inner(e: &[u8; 8], high: bool, acts: bool) -> [u8; 8]
    ensures { result ≡ moved_of e.now (cond acts (cond high (common_steps_of (tapped (samples_across e.now)))
        (inner_steps_of (across (samples_across e.now)))) no_steps) }
{
    let a = only(acts, pull(e, only(high, taps(e))));
    let near = eighth(a, 4);
    let next = only(!high, (near + 1) >> 1);
    moved(e, next, eighth(a, 3), near)
}

// The eight samples after the rule that acts, where `acts` says that one does: what `filter` gives, if `acts` is what the function of that
// name answers.
pub fn straight(e: &[u8; 8], simple: bool, edge: bool, threshold: u8, acts: bool) -> [u8; 8]
    ensures { result ≡ straight_of e.now simple edge threshold acts }
{
    if simple {
        return simply(e, acts);
    }
    let high = high_variance(e, threshold);
    if edge {
        outer(e, high, acts)
    } else {
        inner(e, high, acts)
    }
}
