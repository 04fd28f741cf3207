// The survey calls.
ghost use Rattle.std.specs.Prelude.{◌≡◌};
ghost use Rattle.lent.specs.Memory.{memory_of};
ghost use Rattle.hookbarley.specs.Calls.{called_numbers, survey_numbers, survey_called_of};
ghost use Rattle.survey.specs.Survey.{Added, add_of};

use boundary::tile_numbers::{TILE_NUMBERS, tile_of};
use survey::sums::add;
use survey::survey;
use told::counts::tell_counts;

// As `hookbarley_decode`, with 37 counts lent, into which the picture is counted.
pub fn hookbarley_survey(
    bytes: &[u8],
    header: &[i32],
    tile: &[usize],
    y: &mut [u8],
    u: &mut [u8],
    v: &mut [u8],
    columns: &mut [u8],
    modes: &mut [u8],
    strengths: &mut [u8],
    finished: &mut usize,
    first_reads: &mut u64,
    token_reads: &mut u64,
    counts: &mut [u64],
) -> u32
    ensures { survey_numbers (called_numbers result finished.new first_reads.new token_reads.new
        (memory_of y.new u.new v.new columns.new modes.new strengths.new))
        counts.new
        ≡ survey_called_of bytes.now header.now tile.now
        (memory_of y.old u.old v.old
        columns.old modes.old strengths.old)
        counts.old }
{
    *finished = 0;
    *first_reads = 0;
    *token_reads = 0;
    if tile.len() != TILE_NUMBERS {
        return 9;
    }
    let s = survey(
        bytes,
        tile_of(tile),
        header,
        y,
        u,
        v,
        columns,
        modes,
        strengths,
        counts,
    );
    let reads = s.reads;
    tell_counts(s.finished, reads, finished, first_reads, token_reads);
    s.number
}

// One record of 37 counts added to another.
pub fn hookbarley_survey_add(counts: &mut [u64], other: &[u64]) -> u32
    ensures { ◌≡◌ {A = Added} (record { number = result; counts = counts.new })
        (add_of counts.old other.now) }
{
    add(counts, other)
}
