// The records of a macroblock. In mode memory: segment, skip, small, sixteen luma modes, chroma. In strength memory: limit, inner,
// threshold, inside, then segment and small once more (M-106). Only this file knows.
ghost use Rattle.std.specs.Prelude.{◌≡◌};
ghost use Rattle.lent.specs.Memory.{Written, mode_record, kinds_fine_of, mode_written, mode_found, strength_written, strength_found};

use crate::records::{read, store, write};
use filter::strengths::{Strength, strength_fine};
use modes::answers::Kinds;
use modes::contexts::each_below;
use numbers::Refused;

pub const MODE_WIDTH: usize = 20;

pub const STRENGTH_WIDTH: usize = 6;

// A macroblock's modes as they were found; zeros where they are refused.
// They stay beside the answer: survey and profile use them without a test, and a refused read promises zeros.
#[derive(Clone, Copy)]
pub struct ModeRecord {
    pub answer: Result<(), Refused>,
    pub kinds: Kinds,
    pub modes: [u8; 16],
}

// A macroblock's strengths as they were found, its segment and whether its modes are small; zeros where they are refused.
// They stay beside the answer: survey and deblock use them without a test, and a refused read promises zeros.
#[derive(Clone, Copy)]
pub struct StrengthRecord {
    pub answer: Result<(), Refused>,
    pub strength: Strength,
    pub segment: u8,
    pub small: bool,
}

fn record_of(k: Kinds, modes: &[u8; 16]) -> [u8; MODE_WIDTH]
    ensures { result ≡ mode_record k modes.now }
{
    let mut bytes = [0u8; MODE_WIDTH];
    bytes[0] = k.segment;
    bytes[1] = u8::from(k.skip);
    bytes[2] = u8::from(k.small);
    bytes[19] = k.chroma;
    store(&mut bytes, 3, modes);
    bytes
}

// The sixteen modes are checked beside it.
fn kinds_fine(k: Kinds) -> bool
    ensures { result ≡ kinds_fine_of k }
{
    (k.segment < 4) & (k.chroma < 4)
}

// Writes the modes of macroblock i.
pub fn write_mode_record(
    mem: &mut [u8],
    i: usize,
    kinds: Kinds,
    modes: &[u8; 16],
) -> Result<(), Refused>
    ensures { ◌≡◌ {A = Written} (record { answer = result; mem = mem.new })
        (mode_written mem.old i kinds modes.now) }
{
    let bytes = record_of(kinds, modes);
    write(mem, i, kinds_fine(kinds) & each_below(modes, 10), &bytes)
}

// Reads the modes of macroblock i, in range or not; a flag is true where its byte is not 0.
pub fn read_mode_record(mem: &[u8], i: usize) -> ModeRecord
    ensures { result ≡ mode_found mem.now i }
{
    let mut b = [0u8; MODE_WIDTH];
    let answer = read(mem, i, &mut b);
    ModeRecord {
        answer,
        kinds: Kinds {
            segment: b[0],
            skip: b[1] != 0,
            small: b[2] != 0,
            chroma: b[19],
        },
        modes: [
            b[3], b[4], b[5], b[6], b[7], b[8], b[9], b[10], b[11], b[12], b[13], b[14], b[15],
            b[16], b[17], b[18],
        ],
    }
}

// Writes the strengths of macroblock i, and of its kinds the segment and whether its modes are small.
pub fn write_strength(mem: &mut [u8], i: usize, t: Strength, kinds: Kinds) -> Result<(), Refused>
    ensures { ◌≡◌ {A = Written} (record { answer = result; mem = mem.new })
        (strength_written mem.old i t kinds) }
{
    let bytes = [
        t.limit,
        t.inner,
        t.threshold,
        t.inside,
        kinds.segment,
        u8::from(kinds.small),
    ];
    write(mem, i, strength_fine(t) & (kinds.segment < 4), &bytes)
}

// Reads the strengths of macroblock i, in range or not; small is true where its byte is not 0.
pub fn read_strength(mem: &[u8], i: usize) -> StrengthRecord
    ensures { result ≡ strength_found mem.now i }
{
    let mut b = [0u8; STRENGTH_WIDTH];
    let answer = read(mem, i, &mut b);
    StrengthRecord {
        answer,
        strength: Strength {
            limit: b[0],
            inner: b[1],
            threshold: b[2],
            inside: b[3],
        },
        segment: b[4],
        small: b[5] != 0,
    }
}
