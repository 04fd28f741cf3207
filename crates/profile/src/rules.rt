// The rules of the cockpit profile that no decoding is needed for: 1 and 2 of the tile, 3 and 4 of the header.
ghost use Rattle.std.specs.Prelude.{◌≡◌};
ghost use Rattle.profile.specs.Profile.{count_fits_of, size_fits_of, segments_fit_of, sharpness_fits_of, tile_rules_of, header_rules_of};

use header::entries::{MAP_ON, SEGMENTS_ON, SHARPNESS, present_at};
use tile::Tile;

// Rule 1.
fn size_fits(width: usize, height: usize) -> bool
    ensures { result ≡ size_fits_of width height }
{
    (width == 256) & (height == 256)
}

// Rule 2.
fn count_fits(count: usize) -> bool
    ensures { result ≡ count_fits_of count }
{
    (count == 1) | (count == 2) | (count == 4)
}

// Rule 3: both entries are 0 themselves.
fn segments_fit(header: &[i32]) -> bool
    ensures { result ≡ segments_fit_of header.now }
{
    !present_at(header, SEGMENTS_ON) & !present_at(header, MAP_ON)
}

// Rule 4.
fn sharpness_fits(header: &[i32]) -> bool
    ensures { result ≡ sharpness_fits_of header.now }
{
    !present_at(header, SHARPNESS)
}

// The first of the rules 1 and 2 that fails, or 0.
pub(crate) fn tile_rules(tile: Tile) -> u32
    ensures { result ≡ tile_rules_of tile }
{
    if !size_fits(tile.width, tile.height) {
        return 1;
    }
    if !count_fits(tile.count) {
        return 2;
    }
    0
}

// The first of the rules 3 and 4 that fails, or 0.
pub(crate) fn header_rules(header: &[i32]) -> u32
    ensures { result ≡ header_rules_of header.now }
{
    if !segments_fit(header) {
        return 3;
    }
    if !sharpness_fits(header) {
        return 4;
    }
    0
}
