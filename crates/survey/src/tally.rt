// What one picture counts: its answer, its finished macroblocks by what their mode and strength records say, its symbols.
ghost use Rattle.std.specs.Prelude.{◌≡◌, ◌+◌, ◌≤◌, replicate};
ghost use Rattle.survey.specs.Survey.{luma_of, tallied_of};
ghost use Rattle.survey.specs.Tally.{Roomy, counted, smalls_to, block_counted, blocks_to};

use lent::macroblocks::{read_mode_record, read_strength};
use macroblock::arguments::SymbolCounts;

// One more in the table of `rows` counts that starts at `table`, at x; nothing where the table has no such place.
fn count(counts: &mut [u64], table: usize, rows: usize, x: u8)
    requires roomy { Roomy counts.old 1000000000 }
    requires rows_bound { table + rows ≤ 37 }
    ensures { counts.new ≡ counted counts.old table rows x }
{
    let at = usize::from(x);
    if at < rows {
        let p = table + at;
        counts[p] += 1;
    }
}

// Small counts as a fifth.
fn luma(small: bool, mode: u8) -> u8
    ensures { result ≡ luma_of small mode }
{
    if small { 4 } else { mode }
}

// The sub-blocks of a small macroblock.
fn smalls(counts: &mut [u64], modes: &[u8; 16])
    requires { Roomy counts.old 999999900 }
    ensures { counts.new ≡ smalls_to 16 modes.now counts.old }
{
    for mode in modes {
        count(&mut counts[..], 25, 10, *mode);
    }
}

// Macroblock k.
fn block(counts: &mut [u64], modes: &[u8], strengths: &[u8], k: usize)
    requires { Roomy counts.old 999999800 }
    ensures { counts.new ≡ block_counted modes.now strengths.now k counts.old }
{
    let found = read_mode_record(modes, k);
    let told = read_strength(strengths, k);
    let kinds = found.kinds;
    let all = found.modes;
    let strength = told.strength;
    let kind = luma(kinds.small, all[0]);
    let skip = u8::from(kinds.skip);
    count(&mut counts[..], 8, 4, kinds.segment);
    count(&mut counts[..], 12, 5, kind);
    count(&mut counts[..], 17, 4, kinds.chroma);
    count(&mut counts[..], 21, 2, skip);
    count(&mut counts[..], 23, 2, strength.inside);
    if kinds.small {
        smalls(&mut counts[..], &all);
    }
}

// The macroblocks below n.
fn blocks(counts: &mut [u64], modes: &[u8], strengths: &[u8], n: usize)
    requires roomy { Roomy counts.old 1 }
    requires n_bound { n ≤ 1048576 }
    ensures { counts.new ≡ blocks_to n modes.now strengths.now counts.old }
{
    for k in 0..n {
        block(&mut counts[..], modes, strengths, k);
    }
}

// The answer alone.
fn answered(number: u32) -> [u64; 37]
    ensures { result ≡ counted (replicate 37 0) 0 8 number }
{
    let mut counts = [0u64; 37];
    let at = number as usize;
    if at < 8 {
        counts[at] = 1;
    }
    counts
}

pub(crate) fn tally(
    number: u32,
    n: usize,
    reads: SymbolCounts,
    modes: &[u8],
    strengths: &[u8],
) -> [u64; 37]
    requires { n ≤ 1048576 }
    ensures { result ≡ tallied_of number n reads modes.now strengths.now }
{
    let mut counts = answered(number);
    blocks(&mut counts[..], modes, strengths, n);
    counts[35] = reads.first;
    counts[36] = reads.tokens;
    counts
}
