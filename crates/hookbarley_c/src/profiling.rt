// The cockpit profile.
ghost use Rattle.std.specs.Prelude.{◌≡◌};
ghost use Rattle.lent.specs.Memory.{memory_of};
ghost use Rattle.hookbarley.specs.Calls.{profile_numbers, profile_called_of};

// Arguments and lent memory as of `hookbarley_decode`. Through `rule` goes the rule that fails, 0 where none does or an argument is
// refused; through `macroblock` the one that the last rule names, else 0.
#[unsafe(no_mangle)]
pub extern "C" fn hookbarley_profile(
    bytes: &[u8],
    header: &[i32],
    tile: &[usize],
    y: &mut [u8],
    u: &mut [u8],
    v: &mut [u8],
    columns: &mut [u8],
    modes: &mut [u8],
    strengths: &mut [u8],
    rule: &mut u32,
    macroblock: &mut usize,
) -> u32
    ensures { profile_numbers result rule.new macroblock.new
        (memory_of y.new u.new v.new columns.new modes.new strengths.new)
        ≡ profile_called_of bytes.now header.now tile.now
        (memory_of y.old u.old v.old
        columns.old modes.old strengths.old) }
{
    hookbarley::profiling::hookbarley_profile(
        bytes, header, tile, y, u, v, columns, modes, strengths, rule, macroblock,
    )
}
