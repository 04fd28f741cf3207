// The 1096 entries that the picture call takes, made from the fields, each stored by its name.
ghost use Rattle.std.specs.Prelude.{◌≡◌, ◌<◌};
ghost use Rattle.frame.specs.Fine.{FineTaken};
ghost use Rattle.frame.specs.Entries.{value_of, plain, stored_entries, four_from_of, three_from_of, with_segments_of, with_filter_of, with_quantizers_of, numbers, number_at_of, entries};

use crate::fields::{CodedNumber, Filter, Four, Header, QuantIndices, Segments, Three};
use header::entries;
use header::entries::PROBABILITY_COUNT;

// A coded number as a number.
fn value(x: CodedNumber) -> i32
    requires { x.size < 256 }
    ensures { result ≡ value_of x }
{
    let size = x.size as i32;
    if x.sign == 0 { size } else { -size }
}

// A number that is coded without a sign.
fn plain(size: u32) -> CodedNumber
    ensures { result ≡ plain size }
{
    CodedNumber { sign: 0, size }
}

// Four numbers, and three, from entry i on.
fn four_from(l: [CodedNumber; 38], i: usize, f: Four) -> [CodedNumber; 38]
    requires { i < 35 }
    ensures { result ≡ stored_entries (four_from_of i f) l }
{
    let mut out = l;
    out[i] = f.a;
    out[i + 1] = f.b;
    out[i + 2] = f.c;
    out[i + 3] = f.d;
    out
}

fn three_from(l: [CodedNumber; 38], i: usize, t: Three) -> [CodedNumber; 38]
    requires { i < 36 }
    ensures { result ≡ stored_entries (three_from_of i t) l }
{
    let mut out = l;
    out[i] = plain(t.a);
    out[i + 1] = plain(t.b);
    out[i + 2] = plain(t.c);
    out
}

#[tactic(auto, unfolding(crate::specs::Entries::with_segments_of))]
fn with_segments(g: Segments, l: [CodedNumber; 38]) -> [CodedNumber; 38]
    ensures { result ≡ with_segments_of g l }
{
    let features = g.features;
    let mut out = l;
    out[entries::SEGMENTS_ON] = plain(g.on);
    out[entries::MAP_ON] = plain(g.map);
    out[entries::SEGMENTS_ABSOLUTE] = plain(features.absolute);
    let quantized = four_from(out, entries::SEGMENT_INDEX, features.quantizers);
    let leveled = four_from(quantized, entries::SEGMENT_LEVEL, features.levels);
    three_from(leveled, entries::MAP_PROBABILITY, g.probs)
}

#[tactic(auto, unfolding(crate::specs::Entries::with_filter_of))]
fn with_filter(f: Filter, l: [CodedNumber; 38]) -> [CodedNumber; 38]
    ensures { result ≡ with_filter_of f l }
{
    let mut out = l;
    out[entries::FRAME_LEVEL] = plain(f.level);
    out[entries::SHARPNESS] = plain(f.sharpness);
    out[entries::DELTAS_ON] = plain(f.on);
    out[entries::INTRA_DELTA] = f.deltas.intra;
    out[entries::SMALL_DELTA] = f.deltas.small;
    out
}

#[tactic(auto, unfolding(crate::specs::Entries::with_quantizers_of))]
fn with_quantizers(q: QuantIndices, l: [CodedNumber; 38]) -> [CodedNumber; 38]
    ensures { result ≡ with_quantizers_of q l }
{
    let mut out = l;
    out[entries::BASE_INDEX] = plain(q.base);
    out[entries::YDC_DELTA] = q.ydc;
    out[entries::Y2DC_DELTA] = q.y2dc;
    out[entries::Y2AC_DELTA] = q.y2ac;
    out[entries::UVDC_DELTA] = q.uvdc;
    out[entries::UVAC_DELTA] = q.uvac;
    out
}

// The entries before the coefficient probabilities.
fn numbers(h: Header) -> [CodedNumber; 38]
    ensures { result ≡ numbers h }
{
    let none = [CodedNumber { sign: 0, size: 0 }; 38];
    with_quantizers(
        h.quantizers,
        with_filter(h.filter, with_segments(h.segments, none)),
    )
}

// What stands at entry i: the numbers, then the coefficient probabilities, then the skip flag and its probability.
#[tactic(auto, unfolding(crate::specs::Entries::number_at_of))]
fn number_at(
    first: [CodedNumber; 38],
    probs: &[u32; PROBABILITY_COUNT],
    skip: u32,
    chance: u32,
    i: usize,
) -> CodedNumber
    requires { i < 1096 }
    ensures { result ≡ number_at_of first probs.now skip chance i }
{
    if i < entries::COEFFICIENT_PROBABILITY {
        first[i]
    } else if i < entries::SKIPS_ON {
        plain(probs[i - entries::COEFFICIENT_PROBABILITY])
    } else if i < entries::SKIP_PROBABILITY {
        plain(skip)
    } else {
        plain(chance)
    }
}

pub(crate) fn entries(h: Header) -> [i32; 1096]
    requires { FineTaken h }
    ensures { result ≡ entries h }
{
    let first = numbers(h);
    let probs = h.probs;
    let mut out = [0i32; 1096];
    for i in 0..entries::ENTRY_COUNT {
        out[i] = value(number_at(first, &probs, h.skip, h.chance, i));
    }
    out
}
