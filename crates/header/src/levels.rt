// The filter level of a macroblock (RFC 6386, sections 9.3, 9.4 and 15): by its segment, and by whether its modes are small.
ghost use Rattle.std.specs.Prelude.{◌≡◌, ◌<◌, pos, negsuc, ◌+ℤ◌, length};
ghost use Rattle.numbers.specs.In.{In, Each};
ghost use Rattle.numbers.specs.Clamp.{up_to};
ghost use Rattle.header.specs.Header.{entry_count};
ghost use Rattle.header.specs.Levels.{delta_of, level_of_of, level_answer};

use crate::entries::{
    DELTAS_ON, FRAME_LEVEL, INTRA_DELTA, SEGMENT_LEVEL, SMALL_DELTA, header_fine, present,
};
use crate::own::segmented;
use numbers::clamp_to;

// What the deltas add: the intra delta, and the small delta where the modes are small.
fn delta(h: &[i32], small: bool) -> i32
    requires h_len { length h.now ≡ entry_count }
    requires each { Each (negsuc 254) (pos 255) h.now }
    ensures { result ≡ delta_of h.now small }
{
    if !present(h[DELTAS_ON]) {
        return 0;
    }
    if small {
        return h[INTRA_DELTA] + h[SMALL_DELTA];
    }
    h[INTRA_DELTA]
}

// A level moved by the deltas, and clamped again.
fn shifted(level: u8, by: i32) -> u8
    requires { In (negsuc 509) (pos 510) by }
    ensures { result ≡ up_to 63 (pos level +ℤ by) }
{
    clamp_to(level as i32 + by, 63)
}

pub(crate) fn leveled(h: &[i32], segment: usize, small: bool) -> u8
    requires h_len { (length h.now ≡ entry_count) × (segment < 4) }
    requires each { Each (negsuc 254) (pos 255) h.now }
    ensures { result ≡ level_of_of h.now segment small }
{
    shifted(
        clamp_to(segmented(h, FRAME_LEVEL, SEGMENT_LEVEL + segment), 63),
        delta(h, small),
    )
}

// The level, 0..63, of the macroblocks of a segment 0..3; none where an argument is refused.
pub fn for_macroblock(h: &[i32], segment: usize, small: bool) -> Option<u8>
    ensures { result ≡ level_answer h.now segment small }
{
    if !header_fine(h) {
        return None;
    }
    if 4 <= segment {
        return None;
    }
    Some(leveled(h, segment, small))
}
