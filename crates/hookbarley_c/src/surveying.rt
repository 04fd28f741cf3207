// The survey calls.
ghost use Rattle.std.specs.Prelude.{◌≡◌};
ghost use Rattle.lent.specs.Memory.{memory_of};
ghost use Rattle.hookbarley.specs.Calls.{called_numbers, survey_numbers, survey_called_of};
ghost use Rattle.survey.specs.Survey.{Added, add_of};

// As `hookbarley_decode`, with 37 counts lent, into which the picture is counted.
#[unsafe(no_mangle)]
pub extern "C" fn hookbarley_survey(
    bytes: &[u8],
    header: &[i32],
    tile: &[usize],
    y: &mut [u8],
    u: &mut [u8],
    v: &mut [u8],
    columns: &mut [u8],
    modes: &mut [u8],
    strengths: &mut [u8],
    finished: &mut usize,
    first_reads: &mut u64,
    token_reads: &mut u64,
    counts: &mut [u64],
) -> u32
    ensures { survey_numbers (called_numbers result finished.new first_reads.new token_reads.new
        (memory_of y.new u.new v.new columns.new modes.new strengths.new))
        counts.new
        ≡ survey_called_of bytes.now header.now tile.now
        (memory_of y.old u.old v.old
        columns.old modes.old strengths.old)
        counts.old }
{
    hookbarley::surveying::hookbarley_survey(
        bytes,
        header,
        tile,
        y,
        u,
        v,
        columns,
        modes,
        strengths,
        finished,
        first_reads,
        token_reads,
        counts,
    )
}

// One record of 37 counts added to another.
#[unsafe(no_mangle)]
pub extern "C" fn hookbarley_survey_add(counts: &mut [u64], other: &[u64]) -> u32
    ensures { ◌≡◌ {A = Added} (record { number = result; counts = counts.new })
        (add_of counts.old other.now) }
{
    hookbarley::surveying::hookbarley_survey_add(counts, other)
}
