// The call on a key frame's own header.
ghost use Rattle.std.specs.Prelude.{◌≡◌};
ghost use Rattle.boundary.specs.FrameCalls.{numbers_of, tile_after, FrameCalled, frame_called_of};
ghost use Rattle.boundary.specs.TileNumbers.{put_of};

use crate::tile_numbers::{TILE_NUMBERS, numbers, put_numbers};
use frame::take::Answer;
use take::take_into;

// Stores what was taken of a frame as 28 numbers.
fn put_taken(tile: &mut [usize], a: Answer)
    ensures { tile.new ≡ put_of tile.old (numbers_of a) }
{
    put_numbers(tile, numbers(a.tile, a.shown, usize::from(a.simple)));
}

// The same after the call from a frame to the screen, which leaves them after a refusal.
pub fn put_shown(tile: &mut [usize], a: Answer)
    ensures { tile.new ≡ tile_after tile.old a }
{
    if a.number == 0 {
        put_taken(tile, a);
    }
}

// Takes a key frame's own header: the entries into `header`, what else the picture call takes into `tile`, 28 numbers (else 9). After a
// refusal those are zero, and the entries as they were.
pub fn frame_taken(bytes: &[u8], header: &mut [i32], tile: &mut [usize]) -> u32
    ensures { ◌≡◌ {A = FrameCalled} (record { number = result; header = header.new; tile = tile.new })
        (frame_called_of bytes.now header.old tile.old) }
{
    if tile.len() != TILE_NUMBERS {
        return 9;
    }
    let a = take_into(bytes, header);
    put_taken(&mut tile[..], a);
    a.number
}
