// The recode call.
ghost use Rattle.std.specs.Prelude.{◌≡◌, length};
ghost use Rattle.lent.specs.Memory.{memory_of};
ghost use Rattle.hookbarley.specs.Calls.{result_of, recode_numbers, recode_called_of};

use boundary::tile_numbers::{TILE_NUMBERS, numbers, put_numbers, tile_of};
use frame::take::ShownSize;
use recode::{Recoded, recode};

// The tile that was written, with the true sizes and the filter kind of the tile that was read; zeros after a refusal.
fn result_of(tile: &[usize], r: Recoded) -> [usize; 28]
    requires { length tile.now ≡ 28 }
    ensures { result ≡ result_of tile.now r }
{
    if r.number != 0 {
        return [0; 28];
    }
    let shown = ShownSize {
        width: tile[2],
        height: tile[3],
    };
    numbers(r.tile, shown, tile[4])
}

// As `hookbarley_decode`, then the tile with one token partition at the start of `out`, and its 28 numbers in `res`. 9 where `tile` or
// `res` is not 28 numbers.
pub fn hookbarley_recode(
    bytes: &[u8],
    header: &[i32],
    tile: &[usize],
    y: &mut [u8],
    u: &mut [u8],
    v: &mut [u8],
    columns: &mut [u8],
    modes: &mut [u8],
    strengths: &mut [u8],
    out: &mut [u8],
    res: &mut [usize],
) -> u32
    ensures { recode_numbers result
        (memory_of y.new u.new v.new columns.new modes.new strengths.new)
        out.new res.new
        ≡ recode_called_of bytes.now header.now tile.now
        (memory_of y.old u.old v.old
        columns.old modes.old strengths.old)
        out.old res.old }
{
    if tile.len() != TILE_NUMBERS {
        return 9;
    }
    if res.len() != TILE_NUMBERS {
        return 9;
    }
    let r = recode(
        bytes,
        tile_of(tile),
        header,
        y,
        u,
        v,
        columns,
        modes,
        strengths,
        out,
    );
    put_numbers(res, result_of(tile, r));
    r.number
}
