// Quantizers (RFC 6386, sections 9.6 and 14.1): the six factors of a segment, from the header. Once a segment and a picture.
ghost use Rattle.std.specs.Prelude.{◌≡◌, true, ◌<◌, pos, negsuc, length, get_or};
ghost use Rattle.numbers.specs.In.{In, Each};
ghost use Rattle.numbers.specs.Tables.{flat, in_rows};
ghost use Rattle.header.specs.Header.{entry_count, entry};
ghost use Rattle.header.specs.Quantizers.{index_of, index_with, dc_at, ac_at, second_ac_of, factors_of_of, quantizers_of};

use crate::entries::{
    BASE_INDEX, SEGMENT_INDEX, UVAC_DELTA, UVDC_DELTA, Y2AC_DELTA, Y2DC_DELTA, YDC_DELTA,
    header_fine,
};
use crate::own::segmented;
use numbers::clamp_to;

// What each coefficient is multiplied by: the first of a block, and the others, in luma, in the second-order luma block and in chroma.
#[derive(Clone, Copy)]
pub struct Factors {
    pub ydc: u16,
    pub yac: u16,
    pub y2dc: u16,
    pub y2ac: u16,
    pub uvdc: u16,
    pub uvac: u16,
}

// The DC and AC steps by index (section 14.1).
const DC: [[u16; 8]; 16] = [
    [4, 5, 6, 7, 8, 9, 10, 10],
    [11, 12, 13, 14, 15, 16, 17, 17],
    [18, 19, 20, 20, 21, 21, 22, 22],
    [23, 23, 24, 25, 25, 26, 27, 28],
    [29, 30, 31, 32, 33, 34, 35, 36],
    [37, 37, 38, 39, 40, 41, 42, 43],
    [44, 45, 46, 46, 47, 48, 49, 50],
    [51, 52, 53, 54, 55, 56, 57, 58],
    [59, 60, 61, 62, 63, 64, 65, 66],
    [67, 68, 69, 70, 71, 72, 73, 74],
    [75, 76, 76, 77, 78, 79, 80, 81],
    [82, 83, 84, 85, 86, 87, 88, 89],
    [91, 93, 95, 96, 98, 100, 101, 102],
    [104, 106, 108, 110, 112, 114, 116, 118],
    [122, 124, 126, 128, 130, 132, 134, 136],
    [138, 140, 143, 145, 148, 151, 154, 157],
];

const AC: [[u16; 8]; 16] = [
    [4, 5, 6, 7, 8, 9, 10, 11],
    [12, 13, 14, 15, 16, 17, 18, 19],
    [20, 21, 22, 23, 24, 25, 26, 27],
    [28, 29, 30, 31, 32, 33, 34, 35],
    [36, 37, 38, 39, 40, 41, 42, 43],
    [44, 45, 46, 47, 48, 49, 50, 51],
    [52, 53, 54, 55, 56, 57, 58, 60],
    [62, 64, 66, 68, 70, 72, 74, 76],
    [78, 80, 82, 84, 86, 88, 90, 92],
    [94, 96, 98, 100, 102, 104, 106, 108],
    [110, 112, 114, 116, 119, 122, 125, 128],
    [131, 134, 137, 140, 143, 146, 149, 152],
    [155, 158, 161, 164, 167, 170, 173, 177],
    [181, 185, 189, 193, 197, 201, 205, 209],
    [213, 217, 221, 225, 229, 234, 239, 245],
    [249, 254, 259, 264, 269, 274, 279, 284],
];

// An index moved by one of the header's deltas, and clamped again.
fn moved(index: u8, delta: i32) -> usize
    requires { In (negsuc 254) (pos 255) delta }
    ensures { (result ≡ index_with index delta) × (result < 128) }
{
    clamp_to(index as i32 + delta, 127) as usize
}

// The step at an index of a table.
fn step(rows: [[u16; 8]; 16], i: usize) -> u16
    requires { (i < 128) × (in_rows 8 rows ≡ true) }
    ensures { result ≡ get_or (flat rows) i 0 }
{
    rows[i / 8][i % 8]
}

fn dc_step(i: usize) -> u16
    requires { i < 128 }
    ensures { (result ≡ dc_at i) × (result < 158) }
{
    step(DC, i)
}

fn ac_step(i: usize) -> u16
    requires { i < 128 }
    ensures { (result ≡ ac_at i) × (result < 285) }
{
    step(AC, i)
}

// 155 over 100 of a step, at least 8.
fn second_ac(step: u16) -> u16
    requires { step < 285 }
    ensures { result ≡ second_ac_of step }
{
    (step * 155 / 100).max(8)
}

// The DC step at an index moved by the header's entry `at`.
fn dc_moved(h: &[i32], index: u8, at: usize) -> u16
    requires h_len { (length h.now ≡ entry_count) × (at < entry_count) }
    requires each { Each (negsuc 254) (pos 255) h.now }
    ensures { (result ≡ dc_at (index_with index (entry h.now at))) × (result < 158) }
{
    dc_step(moved(index, h[at]))
}

fn ac_moved(h: &[i32], index: u8, at: usize) -> u16
    requires h_len { (length h.now ≡ entry_count) × (at < entry_count) }
    requires each { Each (negsuc 254) (pos 255) h.now }
    ensures { (result ≡ ac_at (index_with index (entry h.now at))) × (result < 285) }
{
    ac_step(moved(index, h[at]))
}

// The segment's index, in 0..127.
fn base(h: &[i32], segment: usize) -> u8
    requires h_len { (length h.now ≡ entry_count) × (segment < 4) }
    requires each { Each (negsuc 254) (pos 255) h.now }
    ensures { (result ≡ index_of h.now segment) × (result < 128) }
{
    clamp_to(segmented(h, BASE_INDEX, SEGMENT_INDEX + segment), 127)
}

pub(crate) fn six(h: &[i32], segment: usize) -> Factors
    requires h_len { (length h.now ≡ entry_count) × (segment < 4) }
    requires each { Each (negsuc 254) (pos 255) h.now }
    ensures { result ≡ factors_of_of h.now segment }
{
    let index = base(h, segment);
    Factors {
        ydc: dc_moved(h, index, YDC_DELTA),
        yac: ac_step(index as usize),
        y2dc: dc_moved(h, index, Y2DC_DELTA) * 2,
        y2ac: second_ac(ac_moved(h, index, Y2AC_DELTA)),
        uvdc: dc_moved(h, index, UVDC_DELTA).min(132),
        uvac: ac_moved(h, index, UVAC_DELTA),
    }
}

// The factors of a segment 0..3; none where an argument is refused.
pub fn for_segment(h: &[i32], segment: usize) -> Option<Factors>
    ensures { result ≡ quantizers_of h.now segment }
{
    if !header_fine(h) {
        return None;
    }
    if 4 <= segment {
        return None;
    }
    Some(six(h, segment))
}
