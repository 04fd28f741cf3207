// Whether the arguments of a macroblock lie in their ranges. Nothing is multiplied before it is known to be small.
ghost use Rattle.std.specs.Prelude.{◌≡◌, ◌*◌, ◌≤◌};
ghost use Rattle.macroblock.specs.Macroblock.{levels_fine_of, frame_fine_of, around_fine_of, place_fine};

use crate::arguments::{Around, Place};
use header::frame::Frame;
use modes::contexts::context_fine;

fn levels_fine(levels: [u8; 4]) -> bool
    ensures { result ≡ levels_fine_of levels }
{
    ((levels[0] <= 63) & (levels[1] <= 63)) & ((levels[2] <= 63) & (levels[3] <= 63))
}

// Levels of at most 63.
pub fn frame_fine(frame: Frame) -> bool
    ensures { result ≡ frame_fine_of frame }
{
    let large = frame.large;
    let small = frame.small;
    levels_fine(large) & levels_fine(small)
}

// Modes below 10 and flags below 2.
pub fn around_fine(around: Around) -> bool
    ensures { result ≡ around_fine_of around }
{
    let top = around.top;
    let left = around.left;
    context_fine(top) & context_fine(left)
}

fn area(rows: usize, width: usize) -> usize
    requires { (rows ≤ 16384) × (width ≤ 16384) }
    ensures { result ≡ rows * width }
{
    rows * width
}

// Where it is painted: planes of whole macroblocks, given by their lengths, and this one among them.
pub fn laid(y: usize, u: usize, v: usize, place: Place) -> bool
    ensures { result ≡ place_fine y u v place }
{
    let width = place.width;
    if width / 16 <= place.column {
        return false;
    }
    let rows = y / width / 16;
    if 16384 < width {
        return false;
    }
    if 1024 < rows {
        return false;
    }
    let luma = area(rows * 16, width);
    let chroma = area(rows * 8, width / 2);
    ((width % 16 == 0) & (place.row < rows)) & ((y == luma) & ((u == chroma) & (v == chroma)))
}
