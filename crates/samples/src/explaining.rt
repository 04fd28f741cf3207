// Why an edge filter moved eight samples, for C.
ghost use Rattle.std.specs.Prelude.{◌≡◌, length};
ghost use Rattle.samples.specs.ExplainCalls.{ExplainCalled, explain_called_of, rule_number_of, pair_number_of};

use crate::eight::{eight_samples, put_samples};
use filter::answers::Rule;
use filter::explain::explain;

fn rule_number(rule: Rule) -> u32
    ensures { result ≡ rule_number_of rule }
{
    match rule {
        Rule::EdgeFailed => 1,
        Rule::Rough(_) => 2,
        Rule::Simple => 3,
        Rule::HighVariance => 4,
        Rule::MacroblockEdge => 5,
        Rule::InnerEdge => 6,
    }
}

// The pair that failed, counted from 1; 0 where the rule names none.
fn pair_number(rule: Rule) -> u32
    ensures { result ≡ pair_number_of rule }
{
    match rule {
        Rule::Rough(pair) => u32::from(pair) + 1,
        _ => 0,
    }
}

// Stores eight steps.
fn put_steps(s: &mut [i32], t: [i32; 8])
    requires { length s.old ≡ 8 }
    ensures { s.new ≡ t }
{
    s.copy_from_slice(&t);
}

// What `hookbarley_filter` would do to the samples, and why: rule 1..6 and pair 1..6 by number, the samples after the filter, the steps
// before clipping. 9, both numbers 0, nothing else changed, where one of the three is not eight long.
pub fn explained(
    samples: &[u8],
    simple: u8,
    edge: u8,
    limit: u8,
    inner: u8,
    threshold: u8,
    after: &mut [u8],
    steps: &mut [i32],
    rule: &mut u32,
    pair: &mut u32,
) -> u32
    ensures { ◌≡◌ {A = ExplainCalled}
        (record { number = result; rule = rule.new; pair = pair.new; after = after.new; steps = steps.new })
        (explain_called_of samples.now simple edge limit inner threshold after.old steps.old) }
{
    *rule = 0;
    *pair = 0;
    if samples.len() != 8 {
        return 9;
    }
    if after.len() != 8 {
        return 9;
    }
    if steps.len() != 8 {
        return 9;
    }
    let before = eight_samples(samples);
    let x = explain(&before, simple != 0, edge != 0, limit, inner, threshold);
    let why = x.rule;
    let moved = x.after;
    let added = x.steps;
    put_samples(after, moved);
    put_steps(steps, added);
    *rule = rule_number(why);
    *pair = pair_number(why);
    0
}
