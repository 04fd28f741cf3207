// What a rule adds to each of eight samples.
ghost use Rattle.std.specs.Prelude.{◌≡◌, pos, negsuc, get_or};
ghost use Rattle.numbers.specs.In.{In, Each};
ghost use Rattle.numbers.specs.Clamp.{signed_byte_z};
ghost use Rattle.numbers.specs.Lists.{build};
ghost use Rattle.filter.specs.Kernel.{samples_across, across, tapped, eighth, sides, common_steps_of, macroblock_steps_of, inner_steps_of, steps_of, moved_of};

use super::answers::Rule;
use super::samples::{minus, plus};

// v as a signed byte, -128..=127.
pub fn signed_byte(v: i16) -> i16
    ensures { result ≡ signed_byte_z v }
{
    v.clamp(-128, 127)
}

// Three times the step across the edge.
#[tactic(auto, unfolding(crate::specs::Kernel::across))]
fn across(e: &[u8; 8]) -> i16
    ensures value { result ≡ across (samples_across e.now) }
    ensures fact { In (negsuc 764) (pos 765) result }
{
    3 * minus(e[4], e[3])
}

// The same with the outer taps.
fn tapped(e: &[u8; 8]) -> i16
    ensures value { result ≡ tapped (samples_across e.now) }
    ensures fact { In (negsuc 892) (pos 892) result }
{
    across(e) + signed_byte(minus(e[2], e[5]))
}

// An eighth, rounded down, in -16..=15.
fn eighth(a: i16) -> i16
    ensures { result ≡ eighth a }
{
    (a >> 3).clamp(-16, 15)
}

// The steps of eight samples: what is added on the p side is taken off on the q side.
fn sides(p2: i16, p1: i16, p0: i16, q0: i16, q1: i16, q2: i16) -> [i16; 8]
    requires { In (negsuc 127) (pos 127) q0 × In (negsuc 127) (pos 127) q1 × In (negsuc 127) (pos 127) q2 }
    ensures { result ≡ sides p2 p1 p0 q0 q1 q2 }
{
    [0, p2, p1, p0, -q0, -q1, -q2, 0]
}

// p0 and q0 move toward each other.
fn common_steps(a: i16) -> [i16; 8]
    requires { In (negsuc 892) (pos 892) a }
    ensures { result ≡ common_steps_of a }
{
    sides(0, 0, eighth(a + 3), eighth(a + 4), 0, 0)
}

// Three samples on each side move, the nearest most.
fn macroblock_steps(w: i16) -> [i16; 8]
    requires { In (negsuc 127) (pos 127) w }
    ensures { result ≡ macroblock_steps_of w }
{
    let near = (27 * w + 63) >> 7;
    let next = (18 * w + 63) >> 7;
    let far = (9 * w + 63) >> 7;
    sides(far, next, near, near, next, far)
}

// Two samples on each side move, the second half as far.
fn inner_steps(a: i16) -> [i16; 8]
    requires { In (negsuc 892) (pos 892) a }
    ensures { result ≡ inner_steps_of a }
{
    let near = eighth(a + 4);
    let next = (near + 1) >> 1;
    sides(0, next, eighth(a + 3), near, next, 0)
}

// Each sample with its step added, clipped.
fn moved(e: &[u8; 8], s: &[i16; 8]) -> [u8; 8]
    requires { Each (negsuc 126) (pos 127) s.now }
    ensures { result ≡ moved_of e.now s.now }
{
    let mut out = [0; 8];
    for i in 0..8 {
        out[i] = plus(e[i], s[i]);
    }
    out
}

// What the rule adds to each sample.
fn steps(e: &[u8; 8], rule: Rule) -> [i16; 8]
    ensures { result ≡ steps_of rule (samples_across e.now) }
{
    match rule {
        Rule::EdgeFailed => sides(0, 0, 0, 0, 0, 0),
        Rule::Rough(_) => sides(0, 0, 0, 0, 0, 0),
        Rule::Simple => common_steps(tapped(e)),
        Rule::HighVariance => common_steps(tapped(e)),
        Rule::MacroblockEdge => macroblock_steps(signed_byte(tapped(e))),
        Rule::InnerEdge => inner_steps(across(e)),
    }
}

// What the rule does.
pub fn acted(e: &[u8; 8], rule: Rule) -> [u8; 8]
    ensures { result ≡ moved_of e.now (steps_of rule (samples_across e.now)) }
{
    let s = steps(e, rule);
    moved(e, &s)
}

// The same steps in 32 bits.
fn widened(s: &[i16; 8]) -> [i32; 8]
    requires { Each (negsuc 126) (pos 127) s.now }
    ensures { result ≡ build 8 (λ k. get_or s.now k (pos 0)) }
{
    let mut out = [0; 8];
    for i in 0..8 {
        out[i] = i32::from(s[i]);
    }
    out
}

// What the rule adds to each sample, before the sum is clipped, in 32 bits.
pub fn added(e: &[u8; 8], rule: Rule) -> [i32; 8]
    ensures { result ≡ steps_of rule (samples_across e.now) }
{
    let s = steps(e, rule);
    widened(&s)
}
