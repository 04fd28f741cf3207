// Whether a rule acts on eight samples, in bytes: the compiler then takes sixteen positions with one instruction.
ghost use Rattle.std.specs.Prelude.{◌≡◌, ◌+◌, min};
ghost use Rattle.filter.specs.Kernel.{samples_across, within_limit_of, high_variance_of};
ghost use Rattle.straight.specs.Straight.{acts_of, half_step_of, roughest};

use filter::rules::{distance, within_limit};

// Half of what the edge test asks, or 255 where it is more.
#[tactic(auto, unfolding(crate::specs::Straight::half_step_of))]
fn half_step(e: &[u8; 8]) -> u8
    ensures { result ≡ min (half_step_of (samples_across e.now)) 255 }
{
    let a = distance(e[3], e[4]);
    let b = distance(e[2], e[5]);
    a.saturating_add(a).saturating_add(b / 2)
}

// How far two neighbours lie apart at most, of the six pairs.
#[tactic(auto, unfolding(crate::specs::Straight::roughest))]
fn roughest(e: &[u8; 8]) -> u8
    ensures { result ≡ roughest (samples_across e.now) }
{
    distance(e[0], e[1])
        .max(distance(e[1], e[2]))
        .max(distance(e[2], e[3]))
        .max(distance(e[7], e[6]))
        .max(distance(e[6], e[5]))
        .max(distance(e[5], e[4]))
}

// Whether the two samples next to the edge, on either side, differ by more than threshold.
pub(crate) fn high_variance(e: &[u8; 8], threshold: u8) -> bool
    ensures { result ≡ high_variance_of (samples_across e.now) threshold }
{
    threshold < distance(e[2], e[3]).max(distance(e[5], e[4]))
}

// The edge test: in bytes, but for the limit that those do not reach.
#[tactic(auto, using(crate::specs::BytesLaws::within_bytes))]
fn within(e: &[u8; 8], limit: u8) -> bool
    ensures { result ≡ within_limit_of (samples_across e.now) limit }
{
    if limit == 255 {
        within_limit(e, limit)
    } else {
        half_step(e) <= limit
    }
}

// Whether a rule acts on the eight samples.
#[tactic(auto, using(crate::specs::BytesLaws::acts_bytes))]
pub fn acts(e: &[u8; 8], simple: bool, limit: u8, inner: u8) -> bool
    ensures { result ≡ acts_of (samples_across e.now) simple limit inner }
{
    within(e, limit) & (simple | (roughest(e) <= inner))
}
