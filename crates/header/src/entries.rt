// The header's entries: 1096 numbers, of which each layer reads its own. A probability is an entry modulo 256. The names are those of
// specs/Header.antt, which says what each is.
ghost use Rattle.std.specs.Prelude.{◌≡◌};
ghost use Rattle.header.specs.Header.{present_of, probability_of, present_at_of, probability_at_of, entries_of, header_of};

pub const SEGMENTS_ON: usize = 2;

pub const MAP_ON: usize = 3;

pub const SEGMENTS_ABSOLUTE: usize = 5;

pub const SEGMENT_INDEX: usize = 6;

pub const SEGMENT_LEVEL: usize = 10;

pub const MAP_PROBABILITY: usize = 14;

pub const FRAME_LEVEL: usize = 18;

pub const SHARPNESS: usize = 19;

pub const DELTAS_ON: usize = 20;

pub const INTRA_DELTA: usize = 22;

pub const SMALL_DELTA: usize = 26;

pub const BASE_INDEX: usize = 31;

pub const YDC_DELTA: usize = 32;

pub const Y2DC_DELTA: usize = 33;

pub const Y2AC_DELTA: usize = 34;

pub const UVDC_DELTA: usize = 35;

pub const UVAC_DELTA: usize = 36;

pub const COEFFICIENT_PROBABILITY: usize = 38;

pub const PROBABILITY_COUNT: usize = 1056;

pub const SKIPS_ON: usize = 1094;

pub const SKIP_PROBABILITY: usize = 1095;

pub const ENTRY_COUNT: usize = 1096;

// Whether what an entry announces is there.
pub fn present(entry: i32) -> bool
    ensures { result ≡ present_of entry }
{
    entry != 0
}

// The probability that an entry stands for. The multiple of 256 that is added keeps what is divided positive.
pub fn probability(entry: i32) -> u8
    ensures { result ≡ probability_of entry }
{
    ((entry as i64 + 4294967296) % 256) as u8
}

// The same of the header's entry i. An entry past the end is 0.
pub fn present_at(h: &[i32], i: usize) -> bool
    ensures { result ≡ present_at_of h.now i }
{
    present(h.get(i).copied().unwrap_or(0))
}

pub fn probability_at(h: &[i32], i: usize) -> u8
    ensures { result ≡ probability_at_of h.now i }
{
    probability(h.get(i).copied().unwrap_or(0))
}

// Whether each entry lies in -255..255, however many there are.
pub fn entries_fine(h: &[i32]) -> bool
    ensures { result ≡ entries_of h.now }
{
    for x in h {
        if (*x < -255) | (255 < *x) {
            return false;
        }
    }
    true
}

// Whether there are 1096 entries, each in -255..255.
pub fn header_fine(h: &[i32]) -> bool
    ensures { result ≡ header_of h.now }
{
    (h.len() == ENTRY_COUNT) & entries_fine(h)
}
