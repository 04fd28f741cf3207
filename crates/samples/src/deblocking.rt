// The deblocking call.
ghost use Rattle.std.specs.Prelude.{◌≡◌};
ghost use Rattle.macroblock.specs.Macroblock.{planes_of};
ghost use Rattle.samples.specs.FilterCalls.{DeblockCalled, deblock_called_of};

use deblock::deblock;

// Deblocks the planes in place by the strengths that the picture call left. `simple` is true where it is not 0.
pub fn deblocked(
    y: &mut [u8],
    u: &mut [u8],
    v: &mut [u8],
    strengths: &[u8],
    width: usize,
    height: usize,
    simple: u32,
) -> u32
    ensures { ◌≡◌ {A = DeblockCalled}
        (record { number = result; planes = planes_of y.new u.new v.new })
        (deblock_called_of (planes_of y.old u.old v.old)
        strengths.now width height simple) }
{
    match deblock(y, u, v, strengths, width, height, simple != 0) {
        Ok(()) => 0,
        Err(e) => e.number(),
    }
}
