// How many symbols modes that were read took: each says it by how deep it stands in its tree.
ghost use Rattle.std.specs.Prelude.{◌≡◌, true, ◌<◌, ◌≤◌, ◌+◌, get_or};
ghost use Rattle.modes.specs.Modes.{Modes, macroblock_of, prefix_reads_of, large_reads, small_depths, small_reads_of, luma_reads_of, modes_read_of};

use crate::answers::Kinds;
use header::frame::Announced;

// What stood before the modes.
fn prefix_reads(a: Announced) -> u64
    ensures { (result ≡ prefix_reads_of a) × (result ≤ 4) }
{
    let map = u64::from(a.map);
    map + map + u64::from(a.skips) + 1
}

// How deep a chroma mode stands.
fn chroma_reads(mode: u8) -> u64
    requires { mode < 4 }
    ensures { (result ≡ large_reads true mode) × (result ≤ 3) }
{
    let depths = [1u8, 3, 2, 3];
    u64::from(depths[usize::from(mode)])
}

// How deep a small mode stands.
fn depth_of(depths: &[u8; 10], mode: u8) -> u64
    requires depths_value { depths.now ≡ small_depths }
    requires mode_bound { mode < 10 }
    ensures { (result ≡ get_or small_depths mode 0) × (result ≤ 7) }
{
    u64::from(depths[usize::from(mode)])
}

// Sixteen small modes.
fn small_reads(modes: &[u8; 16]) -> u64
    requires { Modes modes.now }
    ensures { (result ≡ small_reads_of 16 modes.now) × (result ≤ 112) }
{
    let depths = [1u8, 2, 3, 5, 6, 6, 5, 6, 7, 7];
    let mut reads: u64 = 0;
    for mode in modes {
        reads += depth_of(&depths, *mode);
    }
    reads
}

fn luma_reads(small: bool, modes: &[u8; 16]) -> u64
    requires { Modes modes.now }
    ensures { (result ≡ luma_reads_of small modes.now) × (result ≤ 112) }
{
    if small {
        return small_reads(modes);
    }
    2
}

// All of a macroblock's modes, which were read.
pub(crate) fn modes_read(a: Announced, kinds: Kinds, modes: &[u8; 16]) -> u64
    requires { Modes modes.now × (kinds.chroma < 4) }
    ensures { result ≡ modes_read_of a (macroblock_of kinds modes.now) }
{
    let first = prefix_reads(a);
    let second = luma_reads(kinds.small, modes);
    let third = chroma_reads(kinds.chroma);
    first + second + third
}
