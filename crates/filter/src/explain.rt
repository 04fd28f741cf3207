// Why eight samples across an edge became what they are.
ghost use Rattle.std.specs.Prelude.{◌≡◌};
ghost use Rattle.filter.specs.Explain.{explain_of};

use super::answers::Rule;
use super::rules::rule;
use super::steps::{acted, added};

// The rule that acted, and for each sample its value before and after the filter, and the step: what the rule added to it before the sum
// was clipped to a byte. The step is below 0 where the sample was to fall, and 0 where the rule leaves it.
#[derive(Clone, Copy, Debug, PartialEq, Eq)]
pub struct Explanation {
    pub rule: Rule,
    pub before: [u8; 8],
    pub after: [u8; 8],
    pub steps: [i32; 8],
}

// What `filter` does to the eight samples with the same arguments, and why.
pub fn explain(
    e: &[u8; 8],
    simple: bool,
    edge: bool,
    limit: u8,
    inner: u8,
    threshold: u8,
) -> Explanation
    ensures { result ≡ explain_of e.now simple edge limit inner threshold }
{
    let why = rule(e, simple, edge, limit, inner, threshold);
    let after = acted(e, why);
    let steps = added(e, why);
    Explanation {
        rule: why,
        before: *e,
        after,
        steps,
    }
}
