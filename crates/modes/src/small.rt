// The small modes of a macroblock (RFC 6386, sections 11.2, 11.3 and 11.5): each is read with nine probabilities that the modes
// above it and left of it choose.
ghost use Rattle.std.specs.Prelude.{◌≡◌, true, ◌<◌, ◌≤◌, ◌+◌, ◌*◌};
ghost use Rattle.std.specs.List.{flat_map};
ghost use Rattle.reader.specs.Reading.{Valid, to_read};
ghost use Rattle.modes.specs.Modes.{Modes, block_mode_of, mode_above_of, mode_left_of, small_modes_of, contexts_of, block_answer, small_answer, Told};
ghost use Rattle.modes.specs.Table.{renumbered_table};

use crate::contexts::each_below;
use crate::large::coded;
use crate::table::BMODE;
use reader::boolean::{Counted, Read, Reader, Unread, valid};

// The tree of small modes.
const B_TREE: [i16; 18] = [
    0, 1, -1, 2, -2, 3, 4, 6, -3, 5, -4, -5, -6, 7, -7, 8, -8, -9,
];

// Where the nine probabilities stand.
pub(crate) fn place(top: u8, left: u8) -> usize
    requires { (top < 10) × (left < 10) }
    ensures { (result ≡ (top * 10 + left) * 9) × (result ≤ 891) }
{
    (usize::from(top) * 10 + usize::from(left)) * 9
}

// The rows by themselves, so that laying them out is proved without their numbers.
fn table_rows() -> [[u8; 9]; 100]
    ensures { flat_map (λ x. x) result ≡ renumbered_table }
{
    BMODE
}

// The table as a value: it is made once for a macroblock, since a constant is written out wherever it is used.
pub fn all_probabilities() -> [u8; 900]
    ensures { result ≡ renumbered_table }
{
    let rows = table_rows();
    let mut all = [0u8; 900];
    all.copy_from_slice(rows.as_flattened());
    all
}

// The nine probabilities are lent from the table, not copied.
fn block(s: &[u8], r: Reader, top: u8, left: u8, all: &[u8]) -> Counted<u8>
    requires valid { Valid s.now r }
    requires top_bound { (top < 10) × (left < 10) }
    requires all_value { all.now ≡ renumbered_table }
    ensures { Told to_read 7 (block_mode_of top left) s.now r result.answer result.reads }
{
    let at = place(top, left);
    let end = at + 9;
    coded(s, r, &all[at..end], &B_TREE)
}

// A small mode, between the mode above it and the mode left of it.
pub fn block_mode(s: &[u8], r: Reader, top: u8, left: u8) -> Read<u8>
    ensures { result ≡ block_answer s.now r top left }
{
    if !valid(s, r) {
        return Err(Unread::Refused);
    }
    if 10 <= top {
        return Err(Unread::Refused);
    }
    if 10 <= left {
        return Err(Unread::Refused);
    }
    let all = all_probabilities();
    block(s, r, top, left, &all).answer
}

// The mode above small block i, and the mode left of it.
pub(crate) fn mode_above(top: &[u8; 4], modes: &[u8; 16], i: usize) -> u8
    requires { i < 16 }
    ensures { result ≡ mode_above_of top.now modes.now i }
{
    if i < 4 {
        return top[i];
    }
    modes[i - 4]
}

pub(crate) fn mode_left(left: &[u8; 4], modes: &[u8; 16], i: usize) -> u8
    requires { i < 16 }
    ensures { result ≡ mode_left_of left.now modes.now i }
{
    if i % 4 == 0 {
        return left[i / 4];
    }
    modes[i - 1]
}

// The sixteen small modes.
pub(crate) fn sixteen(s: &[u8], r: Reader, top: &[u8; 4], left: &[u8; 4]) -> Counted<[u8; 16]>
    requires valid { Valid s.now r }
    requires modes { Modes top.now × Modes left.now }
    ensures { Told to_read 112 (small_modes_of top.now left.now) s.now r result.answer result.reads }
{
    let all = all_probabilities();
    let mut modes = [0u8; 16];
    let mut reads: u64 = 0;
    let mut t = r;
    for i in 0..16 {
        let up = mode_above(top, &modes, i);
        let by = mode_left(left, &modes, i);
        let c = block(s, t, up, by, &all);
        reads += c.reads;
        let Ok((m, next)) = c.answer else {
            return Counted {
                answer: Err(Unread::Missing),
                reads,
            };
        };
        modes[i] = m;
        t = next;
    }
    Counted {
        answer: Ok((modes, t)),
        reads,
    }
}

// Whether four modes above and four left of a macroblock are modes.
pub(crate) fn contexts_fine(top: &[u8; 4], left: &[u8; 4]) -> bool
    ensures { result ≡ contexts_of top.now left.now }
{
    each_below(top, 10) & each_below(left, 10)
}

// The sixteen small modes of a macroblock into `modes`, which keeps what it held unless all are read.
pub fn small_modes(
    s: &[u8],
    r: Reader,
    top: &[u8; 4],
    left: &[u8; 4],
    modes: &mut [u8; 16],
) -> Result<Reader, Unread>
    ensures { record { answer = result; modes = modes.new }
        ≡ small_answer s.now r top.now left.now modes.old }
{
    if !valid(s, r) {
        return Err(Unread::Refused);
    }
    if !contexts_fine(top, left) {
        return Err(Unread::Refused);
    }
    let (read, next) = sixteen(s, r, top, left).answer?;
    *modes = read;
    Ok(next)
}
