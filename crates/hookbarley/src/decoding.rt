// The picture call.
ghost use Rattle.std.specs.Prelude.{◌≡◌};
ghost use Rattle.lent.specs.Memory.{memory_of};
ghost use Rattle.hookbarley.specs.Calls.{called_numbers, called_of};

use boundary::tile_numbers::{TILE_NUMBERS, tile_of};
use choices::answer;
use picture::decode;
use told::counts::tell_counts;

// Decodes the tile of 28 numbers (else 9) into the six lent memories. The macroblocks finished go through `finished`, the symbols read
// through `first_reads` and `token_reads`.
pub fn hookbarley_decode(
    bytes: &[u8],
    header: &[i32],
    tile: &[usize],
    y: &mut [u8],
    u: &mut [u8],
    v: &mut [u8],
    columns: &mut [u8],
    modes: &mut [u8],
    strengths: &mut [u8],
    finished: &mut usize,
    first_reads: &mut u64,
    token_reads: &mut u64,
) -> u32
    ensures { called_numbers result finished.new first_reads.new token_reads.new
        (memory_of y.new u.new v.new columns.new modes.new strengths.new)
        ≡ called_of bytes.now header.now tile.now
        (memory_of y.old u.old v.old
        columns.old modes.old strengths.old) }
{
    *finished = 0;
    *first_reads = 0;
    *token_reads = 0;
    if tile.len() != TILE_NUMBERS {
        return 9;
    }
    let d = decode(
        bytes,
        tile_of(tile),
        header,
        y,
        u,
        v,
        columns,
        modes,
        strengths,
    );
    let ended = d.answer;
    let reads = d.reads;
    tell_counts(
        answer::finished(ended),
        reads,
        finished,
        first_reads,
        token_reads,
    );
    answer::number(ended)
}
