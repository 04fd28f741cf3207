// Which rule acts on eight samples.
ghost use Rattle.std.specs.Prelude.{◌≡◌, true, ◌<◌, pos, get_or};
ghost use Rattle.filter.specs.Kernel.{samples_across, apart, within_limit_of, smooth, pairs, rough_at, high_variance_of, rule_of};

use super::answers::Rule;

// How far a and b lie apart.
pub fn distance(a: u8, b: u8) -> u8
    ensures { result ≡ apart (pos a) (pos b) }
{
    a.abs_diff(b)
}

// The edge test.
#[tactic(auto, unfolding(crate::specs::Kernel::within_limit_of))]
pub fn within_limit(e: &[u8; 8], limit: u8) -> bool
    ensures { result ≡ within_limit_of (samples_across e.now) limit }
{
    4 * u16::from(distance(e[3], e[4])) + u16::from(distance(e[2], e[5]))
        <= 2 * u16::from(limit) + 1
}

// Whether two neighbours differ by at most inner.
#[tactic(auto, unfolding(crate::specs::Kernel::smooth))]
fn smooth(a: u8, b: u8, inner: u8) -> bool
    ensures { result ≡ smooth inner (pos a) (pos b) }
{
    distance(a, b) <= inner
}

// Whether the kth pair of neighbours is smooth: three up to the edge, then three behind it, on either side from the outermost on.
fn pair_smooth(e: &[u8; 8], k: usize, inner: u8) -> bool
    requires { k < 6 }
    ensures { result ≡ get_or (pairs (samples_across e.now) inner) k true }
{
    if k < 3 {
        smooth(e[k], e[k + 1], inner)
    } else {
        smooth(e[10 - k], e[9 - k], inner)
    }
}

// The first pair of neighbours that is not smooth, 6 where all are. No pair after it is looked at.
fn rough(e: &[u8; 8], inner: u8) -> u8
    ensures { result ≡ rough_at (samples_across e.now) inner }
{
    for k in 0..6 {
        if !pair_smooth(e, k, inner) {
            return k as u8;
        }
    }
    6
}

// Whether the two samples next to the edge, on either side, differ by more than threshold.
#[tactic(auto, unfolding(crate::specs::Kernel::high_variance_of))]
fn high_variance(e: &[u8; 8], threshold: u8) -> bool
    ensures { result ≡ high_variance_of (samples_across e.now) threshold }
{
    (distance(e[2], e[3]) > threshold) | (distance(e[5], e[4]) > threshold)
}

// The rule that acts: each test is made once, and none that the answer does not need.
pub fn rule(e: &[u8; 8], simple: bool, edge: bool, limit: u8, inner: u8, threshold: u8) -> Rule
    ensures { result ≡ rule_of (samples_across e.now) simple edge limit inner threshold }
{
    if !within_limit(e, limit) {
        return Rule::EdgeFailed;
    }
    if simple {
        return Rule::Simple;
    }
    let pair = rough(e, inner);
    if pair < 6 {
        return Rule::Rough(pair);
    }
    if high_variance(e, threshold) {
        return Rule::HighVariance;
    }
    if edge {
        Rule::MacroblockEdge
    } else {
        Rule::InnerEdge
    }
}
