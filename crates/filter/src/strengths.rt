// The strengths of a macroblock's edge filter (RFC 6386, section 15.4): limit, inner, threshold, inside.
ghost use Rattle.std.specs.Prelude.{◌≡◌, ◌+◌, ◌≤◌, max};
ghost use Rattle.filter.specs.Strengths.{inner_of, threshold_of, strength_of_of, strength_fine_of, strength_answer};

// A macroblock's strengths: edge limit, interior limit, threshold of high variance; 1 where inner edges are filtered.
#[derive(Clone, Copy, Debug, PartialEq, Eq)]
pub struct Strength {
    pub limit: u8,
    pub inner: u8,
    pub threshold: u8,
    pub inside: u8,
}

// Whether each number is one that a macroblock can have.
pub fn strength_fine(t: Strength) -> bool
    ensures { result ≡ strength_fine_of t }
{
    (t.limit <= 189) & (t.inner <= 63) & (t.threshold <= 2) & (t.inside <= 1)
}

// The interior limit: the level, halved or quartered and capped by the sharpness, and at least 1.
fn inner_limit(level: u8, sharp: u8) -> u8
    ensures { (result ≡ inner_of level sharp) × ((1 ≤ result) × (result ≤ max level 1)) }
{
    if sharp == 0 {
        return level.max(1);
    }
    if 9 <= sharp {
        return 1;
    }
    if 4 < sharp {
        return (level / 4).min(9 - sharp).max(1);
    }
    (level / 2).min(9 - sharp).max(1)
}

// The threshold of high variance in a key frame.
#[tactic(auto, unfolding(crate::specs::Strengths::threshold_of))]
fn variance(level: u8) -> u8
    ensures { result ≡ threshold_of level }
{
    if 40 <= level {
        return 2;
    }
    if 15 <= level {
        return 1;
    }
    0
}

fn of_level(level: u8, sharp: u8, inside: bool) -> Strength
    requires { level ≤ 63 }
    ensures { result ≡ strength_of_of level sharp inside }
{
    if level == 0 {
        return Strength {
            limit: 0,
            inner: 0,
            threshold: 0,
            inside: 0,
        };
    }
    let inner = inner_limit(level, sharp);
    Strength {
        limit: level + level + inner,
        inner,
        threshold: variance(level),
        inside: u8::from(inside),
    }
}

// The strengths at a level 0..63 and a sharpness; `inside` says whether the inner edges are filtered. A level above 63 is refused.
#[tactic(auto, unfolding(crate::specs::Strengths::strength_answer))]
pub fn at_level(level: u8, sharp: u8, inside: bool) -> Option<Strength>
    ensures { result ≡ strength_answer level sharp inside }
{
    if 63 < level {
        return None;
    }
    Some(of_level(level, sharp, inside))
}
