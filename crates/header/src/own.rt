// A segment's own value of something that the frame has one of (RFC 6386, sections 9.3, 9.4 and 9.6).
ghost use Rattle.std.specs.Prelude.{◌≡◌, ◌<◌, pos, negsuc, length};
ghost use Rattle.numbers.specs.In.{Each};
ghost use Rattle.header.specs.Header.{entry_count};
ghost use Rattle.header.specs.Own.{segmented_of};

use crate::entries::{SEGMENTS_ABSOLUTE, SEGMENTS_ON, present};

// The frame's, the segment's own, or their sum.
pub(crate) fn segmented(h: &[i32], base: usize, own: usize) -> i32
    requires h_len { (length h.now ≡ entry_count) × ((base < entry_count) × (own < entry_count)) }
    requires each { Each (negsuc 254) (pos 255) h.now }
    ensures { result ≡ segmented_of h.now base own }
{
    if !present(h[SEGMENTS_ON]) {
        return h[base];
    }
    if present(h[SEGMENTS_ABSOLUTE]) {
        return h[own];
    }
    h[base] + h[own]
}
