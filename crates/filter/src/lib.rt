// The loop filter, RFC 6386 sections 9.4 and 15: the strengths of a macroblock (strengths), and the kernel, eight samples across an edge.
// `filter` is in two steps, as its definition in specs/Kernel.antt is: rules.rt finds which rule acts, and steps.rt what the rule adds to
// each sample. `explain` (explain.rt) tells both.
#![tactic(auto)]

pub mod answers;
pub mod explain;
pub mod rules;
mod samples;
pub mod steps;
pub mod strengths;

ghost use Rattle.std.specs.Prelude.{◌≡◌};
ghost use Rattle.filter.specs.Kernel.{filter_of, pixel_of};

// The eight samples after the filter: p3, p2, p1, p0 up to the edge and q0, q1, q2, q3 behind it.
pub fn filter(e: &[u8; 8], simple: bool, edge: bool, limit: u8, inner: u8, threshold: u8) -> [u8; 8]
    ensures { result ≡ filter_of e.now simple edge limit inner threshold }
{
    steps::acted(e, rules::rule(e, simple, edge, limit, inner, threshold))
}

// The kth of the samples that `filter` gives; an index past the eight is refused.
#[tactic(auto, unfolding(crate::specs::Kernel::pixel_of))]
pub fn pixel(
    e: &[u8; 8],
    simple: bool,
    edge: bool,
    limit: u8,
    inner: u8,
    threshold: u8,
    k: usize,
) -> Option<u8>
    ensures { result ≡ pixel_of e.now simple edge limit inner threshold k }
{
    if k < 8 {
        let out = filter(e, simple, edge, limit, inner, threshold);
        Some(out[k])
    } else {
        None
    }
}
