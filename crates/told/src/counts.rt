// What a picture cost.
ghost use Rattle.std.specs.Prelude.{◌≡◌};
ghost use Rattle.told.specs.Told.{counts_told, counts_of};

use macroblock::arguments::SymbolCounts;

// The macroblocks finished, the symbols read from the first partition and from token partitions.
pub fn tell_counts(
    k: usize,
    reads: SymbolCounts,
    finished: &mut usize,
    first_reads: &mut u64,
    token_reads: &mut u64,
)
    ensures { counts_told finished.new first_reads.new token_reads.new ≡ counts_of k reads }
{
    *finished = k;
    *first_reads = reads.first;
    *token_reads = reads.tokens;
}
