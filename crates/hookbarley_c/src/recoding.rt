// The recode call.
ghost use Rattle.std.specs.Prelude.{◌≡◌};
ghost use Rattle.lent.specs.Memory.{memory_of};
ghost use Rattle.hookbarley.specs.Calls.{recode_numbers, recode_called_of};

// As `hookbarley_decode`, then the tile with one token partition at the start of `out`, and its 28 numbers in `res`. 9 where `tile` or
// `res` is not 28 numbers.
#[unsafe(no_mangle)]
pub extern "C" fn hookbarley_recode(
    bytes: &[u8],
    header: &[i32],
    tile: &[usize],
    y: &mut [u8],
    u: &mut [u8],
    v: &mut [u8],
    columns: &mut [u8],
    modes: &mut [u8],
    strengths: &mut [u8],
    out: &mut [u8],
    res: &mut [usize],
) -> u32
    ensures { recode_numbers result
        (memory_of y.new u.new v.new columns.new modes.new strengths.new)
        out.new res.new
        ≡ recode_called_of bytes.now header.now tile.now
        (memory_of y.old u.old v.old
        columns.old modes.old strengths.old)
        out.old res.old }
{
    hookbarley::recoding::hookbarley_recode(
        bytes, header, tile, y, u, v, columns, modes, strengths, out, res,
    )
}
