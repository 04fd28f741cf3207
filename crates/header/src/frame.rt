// What all macroblocks of a picture share: made once from the header, which is tried once (RFC 6386, sections 9.3, 9.4, 9.6, 9.11, 14.1
// and 15).
ghost use Rattle.std.specs.Prelude.{◌≡◌, pos, negsuc, length};
ghost use Rattle.numbers.specs.In.{Each};
ghost use Rattle.header.specs.Header.{entry_count};
ghost use Rattle.header.specs.Frame.{levels_of, announced_of, frame_of, framed_of};

use crate::entries::{
    MAP_ON, MAP_PROBABILITY, SHARPNESS, SKIP_PROBABILITY, SKIPS_ON, header_fine, present_at,
    probability_at,
};
use crate::levels::leveled;
use crate::quantizers::{Factors, six};
use numbers::clamp_to;

// What stands before each macroblock's modes: a segment where there is a map, a skip flag where there are such; with what
// probabilities.
#[derive(Clone, Copy)]
pub struct Announced {
    pub map: bool,
    pub map_probabilities: [u8; 3],
    pub skips: bool,
    pub skip_probability: u8,
}

// The quantizers of the four segments; the filter levels of the four where modes are large and where they are small; the sharpness;
// what is announced.
#[derive(Clone, Copy)]
pub struct Frame {
    pub factors: [Factors; 4],
    pub large: [u8; 4],
    pub small: [u8; 4],
    pub sharp: u8,
    pub announced: Announced,
}

fn levels(h: &[i32], small: bool) -> [u8; 4]
    requires h_len { length h.now ≡ entry_count }
    requires each { Each (negsuc 254) (pos 255) h.now }
    ensures { result ≡ levels_of h.now small }
{
    [
        leveled(h, 0, small),
        leveled(h, 1, small),
        leveled(h, 2, small),
        leveled(h, 3, small),
    ]
}

// What a header announces, whatever its entries are.
pub fn announced_by(h: &[i32]) -> Announced
    ensures { result ≡ announced_of h.now }
{
    Announced {
        map: present_at(h, MAP_ON),
        map_probabilities: [
            probability_at(h, MAP_PROBABILITY),
            probability_at(h, MAP_PROBABILITY + 1),
            probability_at(h, MAP_PROBABILITY + 2),
        ],
        skips: present_at(h, SKIPS_ON),
        skip_probability: probability_at(h, SKIP_PROBABILITY),
    }
}

fn made(h: &[i32]) -> Frame
    requires h_len { length h.now ≡ entry_count }
    requires each { Each (negsuc 254) (pos 255) h.now }
    ensures { result ≡ frame_of h.now }
{
    Frame {
        factors: [six(h, 0), six(h, 1), six(h, 2), six(h, 3)],
        large: levels(h, false),
        small: levels(h, true),
        sharp: clamp_to(h[SHARPNESS], 255),
        announced: announced_by(h),
    }
}

// The frame of a header of 1096 entries in -255..255; none of another.
pub fn take(h: &[i32]) -> Option<Frame>
    ensures { result ≡ framed_of h.now }
{
    if !header_fine(h) {
        return None;
    }
    Some(made(h))
}
