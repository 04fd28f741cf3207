// Why an edge filter moved eight samples.
ghost use Rattle.std.specs.Prelude.{◌≡◌};
ghost use Rattle.samples.specs.ExplainCalls.{ExplainCalled, explain_called_of};

// What `hookbarley_filter` would do to the samples, and why: rule 1..6 and pair 1..6 by number, the samples after the filter, the steps
// before clipping. 9, both numbers 0, nothing else changed, where one of the three is not eight long.
#[unsafe(no_mangle)]
pub extern "C" fn hookbarley_explain(
    samples: &[u8],
    simple: u8,
    edge: u8,
    limit: u8,
    inner: u8,
    threshold: u8,
    after: &mut [u8],
    steps: &mut [i32],
    rule: &mut u32,
    pair: &mut u32,
) -> u32
    ensures { ◌≡◌ {A = ExplainCalled}
        (record { number = result; rule = rule.new; pair = pair.new; after = after.new; steps = steps.new })
        (explain_called_of samples.now simple edge limit inner threshold after.old steps.old) }
{
    hookbarley::explaining::hookbarley_explain(
        samples, simple, edge, limit, inner, threshold, after, steps, rule, pair,
    )
}
