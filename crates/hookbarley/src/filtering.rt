// The edge kernel's call.
ghost use Rattle.std.specs.Prelude.{◌≡◌};
ghost use Rattle.samples.specs.FilterCalls.{Filtered, filtered_of};

use samples::filtering::filtered;

// The edge kernel on eight samples across an edge, p3 to p0 and q0 to q3, in place; 9 where there are not eight. `simple` and
// `edge` (a macroblock edge) are true where they are not 0.
pub fn hookbarley_filter(
    samples: &mut [u8],
    simple: u8,
    edge: u8,
    limit: u8,
    inner: u8,
    threshold: u8,
) -> u32
    ensures { ◌≡◌ {A = Filtered} (record { number = result; samples = samples.new })
        (filtered_of samples.old simple edge limit inner threshold) }
{
    filtered(samples, simple, edge, limit, inner, threshold)
}
