// The rescue call.
ghost use Rattle.std.specs.Prelude.{◌≡◌};
ghost use Rattle.lent.specs.Memory.{memory_of};
ghost use Rattle.hookbarley.specs.Calls.{rescue_numbers, rescue_called_of};

// As `hookbarley_decode`, with a byte a macroblock lent for the marks. The macroblocks marked 0 or 1 go through `kept`.
#[unsafe(no_mangle)]
pub extern "C" fn hookbarley_rescue(
    bytes: &[u8],
    header: &[i32],
    tile: &[usize],
    y: &mut [u8],
    u: &mut [u8],
    v: &mut [u8],
    columns: &mut [u8],
    modes: &mut [u8],
    strengths: &mut [u8],
    marks: &mut [u8],
    kept: &mut usize,
) -> u32
    ensures { rescue_numbers result kept.new
        (memory_of y.new u.new v.new columns.new modes.new strengths.new)
        marks.new
        ≡ rescue_called_of bytes.now header.now tile.now
        (memory_of y.old u.old v.old
        columns.old modes.old strengths.old)
        marks.old }
{
    hookbarley::rescuing::hookbarley_rescue(
        bytes, header, tile, y, u, v, columns, modes, strengths, marks, kept,
    )
}
