// update_segmentation() (RFC 6386, sections 9.3 and 19.2).
ghost use Rattle.std.specs.Prelude.{◌≡◌};
ghost use Rattle.frame.specs.Header.{when, no_features_of, features, map_prob_of, no_probs_of, map_probs_of, no_segments_of, update, segments};
ghost use Rattle.reader.specs.Reads.{Reads};

use crate::fields::{CodedNumber, Features, Four, Segments, Three};
use crate::literal::{four, literal};
use reader::boolean::Reader;

fn features(s: &[u8], r: Reader) -> (Features, Reader)
    ensures { Reads features s.now r result.0 result.1 }
{
    let (absolute, r1) = literal(s, r, 1);
    let (quantizers, r2) = four(s, r1, 7);
    let (levels, r3) = four(s, r2, 6);
    (
        Features {
            absolute,
            quantizers,
            levels,
        },
        r3,
    )
}

fn map_prob(s: &[u8], r: Reader) -> (u32, Reader)
    ensures { Reads map_prob_of s.now r result.0 result.1 }
{
    let (given, next) = literal(s, r, 1);
    if given == 0 {
        return (255, next);
    }
    literal(s, next, 8)
}

fn map_probs(s: &[u8], r: Reader) -> (Three, Reader)
    ensures { Reads map_probs_of s.now r result.0 result.1 }
{
    let (a, r1) = map_prob(s, r);
    let (b, r2) = map_prob(s, r1);
    let (c, r3) = map_prob(s, r2);
    (Three { a, b, c }, r3)
}

// Nothing announced: zeros.
fn no_features() -> Features
    ensures { result ≡ no_features_of }
{
    let none = CodedNumber { sign: 0, size: 0 };
    let four = Four {
        a: none,
        b: none,
        c: none,
        d: none,
    };
    Features {
        absolute: 0,
        quantizers: four,
        levels: four,
    }
}

fn no_probs() -> Three
    ensures { result ≡ no_probs_of }
{
    Three { a: 0, b: 0, c: 0 }
}

fn features_when(s: &[u8], r: Reader, flag: u32) -> (Features, Reader)
    ensures { Reads (when flag no_features_of features) s.now r result.0 result.1 }
{
    if flag == 0 {
        return (no_features(), r);
    }
    features(s, r)
}

fn probs_when(s: &[u8], r: Reader, flag: u32) -> (Three, Reader)
    ensures { Reads (when flag no_probs_of map_probs_of) s.now r result.0 result.1 }
{
    if flag == 0 {
        return (no_probs(), r);
    }
    map_probs(s, r)
}

fn update(s: &[u8], r: Reader, on: u32) -> (Segments, Reader)
    ensures { Reads (update on) s.now r result.0 result.1 }
{
    let (map, r1) = literal(s, r, 1);
    let (changes, r2) = literal(s, r1, 1);
    let (features, r3) = features_when(s, r2, changes);
    let (probs, r4) = probs_when(s, r3, map);
    (
        Segments {
            on,
            map,
            features,
            probs,
        },
        r4,
    )
}

fn no_segments() -> Segments
    ensures { result ≡ no_segments_of }
{
    Segments {
        on: 0,
        map: 0,
        features: no_features(),
        probs: no_probs(),
    }
}

pub(crate) fn segments(s: &[u8], r: Reader) -> (Segments, Reader)
    ensures { Reads segments s.now r result.0 result.1 }
{
    let (on, next) = literal(s, r, 1);
    if on == 0 {
        return (no_segments(), next);
    }
    update(s, next, on)
}
