// The argument checks of the picture call, 1 to 5. Every number is tried before it is added or multiplied, so nothing wraps.
ghost use Rattle.std.specs.Prelude.{◌≡◌};
ghost use Rattle.choices.specs.Choices.{call_of, checked_of};

use crate::answer::Refusal;
use header::entries::{ENTRY_COUNT, entries_fine};
use lent::sizes::{Sizes, sizes_fine};
use tile::Tile;
use tile::checks::{count_fine, partitions_fine, sides_fine};

// The first check that fails. Of the lent memory only the sizes are given, since no check looks into it.
pub fn refusal(bytes: &[u8], tile: Tile, header: &[i32], sizes: Sizes) -> Result<(), Refusal>
    ensures { result ≡ checked_of (call_of bytes.now tile header.now) sizes }
{
    let w = tile.width;
    let h = tile.height;
    if !sides_fine(w, h) {
        return Err(Refusal::Sides);
    }
    if !count_fine(tile.count) {
        return Err(Refusal::Count);
    }
    if !entries_fine(header) {
        return Err(Refusal::Entries);
    }
    if !sizes_fine(w, h, sizes) {
        return Err(Refusal::Memory);
    }
    if header.len() != ENTRY_COUNT {
        return Err(Refusal::Memory);
    }
    if !partitions_fine(bytes, tile) {
        return Err(Refusal::Partitions);
    }
    Ok(())
}
