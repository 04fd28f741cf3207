// The call from a key frame's bytes to the picture on the screen.
ghost use Rattle.std.specs.Prelude.{◌≡◌};
ghost use Rattle.lent.specs.Memory.{memory_of};
ghost use Rattle.hookbarley.specs.Calls.{shown_numbers, show_called_of};

use boundary::frame_header::put_shown;
use boundary::tile_numbers::TILE_NUMBERS;
use key_frame::key_frame;
use told::counts::tell_counts;

// Takes the frame's header, decodes its picture and runs its loop filter. The entries go into `header`, what else was taken into `tile`, 28
// numbers (else 9). After a refusal nothing lent has changed.
pub fn hookbarley_key_frame(
    bytes: &[u8],
    header: &mut [i32],
    tile: &mut [usize],
    y: &mut [u8],
    u: &mut [u8],
    v: &mut [u8],
    columns: &mut [u8],
    modes: &mut [u8],
    strengths: &mut [u8],
    finished: &mut usize,
    first_reads: &mut u64,
    token_reads: &mut u64,
) -> u32
    ensures { shown_numbers result finished.new first_reads.new token_reads.new
        header.new tile.new
        (memory_of y.new u.new v.new columns.new modes.new strengths.new)
        ≡ show_called_of bytes.now header.old tile.old
        (memory_of y.old u.old v.old
        columns.old modes.old strengths.old) }
{
    *finished = 0;
    *first_reads = 0;
    *token_reads = 0;
    if tile.len() != TILE_NUMBERS {
        return 9;
    }
    let shown = key_frame(bytes, header, y, u, v, columns, modes, strengths);
    let taken = shown.taken;
    let reads = shown.reads;
    tell_counts(shown.finished, reads, finished, first_reads, token_reads);
    put_shown(&mut tile[..], taken);
    shown.number
}
