// The modes of a macroblock, read and written again (RFC 6386, section 19.3).
ghost use Rattle.std.specs.Prelude.{◌≡◌, not, ◌<◌};
ghost use Rattle.modes.specs.Modes.{Modes, segment, skip, mode_above_of, mode_left_of, block_mode_of, small_modes_of, luma, modes_of};
ghost use Rattle.modes.specs.Table.{renumbered_table};
ghost use Rattle.recode.specs.Copies.{Copies, same};
ghost use Rattle.recode_frame.specs.HeaderCopies.{Copied};
ghost use Rattle.recode_frame.specs.ModeCopies.{luma_of};

use crate::tree::{CHROMA, LUMA, LeafCopied, SEGMENTS, SMALL, copy_tree};
use header::frame::Announced;
use modes::small::all_probabilities;
use recode::pipe::{Pipe, ask};

// Sixteen luma modes, and the pipe after what was read.
#[derive(Clone, Copy)]
pub(crate) struct ModesCopied {
    pub modes: [u8; 16],
    pub next: Pipe,
}

// The segment, where the frame has a map.
fn copy_segment(s: &[u8], p: Pipe, out: &mut [u8], a: Announced) -> Pipe
    ensures { Copied (segment a) s.now p out.old result out.new }
{
    if !a.map {
        return p;
    }
    let probs = a.map_probabilities;
    let c = copy_tree(s, p, out, &probs, &SEGMENTS);
    c.next
}

// The skip flag, where the frame has them.
fn copy_skip(s: &[u8], p: Pipe, out: &mut [u8], a: Announced) -> Pipe
    ensures { Copied (skip a) s.now p out.old result out.new }
{
    if !a.skips {
        return p;
    }
    let b = ask(s, p, out, a.skip_probability);
    b.next
}

// The mode above small block i, and the mode left of it.
fn above(top: &[u8; 4], modes: &[u8; 16], i: usize) -> u8
    requires { i < 16 }
    ensures { result ≡ mode_above_of top.now modes.now i }
{
    if i < 4 {
        return top[i];
    }
    modes[i - 4]
}

fn aside(left: &[u8; 4], modes: &[u8; 16], i: usize) -> u8
    requires { i < 16 }
    ensures { result ≡ mode_left_of left.now modes.now i }
{
    if i % 4 == 0 {
        return left[i / 4];
    }
    modes[i - 1]
}

// A small mode between two others.
fn copy_small(s: &[u8], p: Pipe, out: &mut [u8], all: &[u8], up: u8, by: u8) -> LeafCopied
    requires up_bound { (up < 10) × (by < 10) }
    requires all_value { all.now ≡ renumbered_table }
    ensures { Copies same (block_mode_of up by) s.now p out.old result.leaf result.next out.new × (result.leaf < 10) }
{
    let at = (usize::from(up) * 10 + usize::from(by)) * 9;
    let end = at + 9;
    copy_tree(s, p, out, &all[at..end], &SMALL)
}

// The sixteen small modes.
fn copy_sixteen(s: &[u8], p: Pipe, out: &mut [u8], top: &[u8; 4], left: &[u8; 4]) -> ModesCopied
    requires { Modes top.now × Modes left.now }
    ensures { Copies same (small_modes_of top.now left.now) s.now p out.old
        result.modes result.next out.new × Modes result.modes }
{
    let all = all_probabilities();
    let mut modes = [0u8; 16];
    let mut next = p;
    for i in 0..16 {
        let up = above(top, &modes, i);
        let by = aside(left, &modes, i);
        let m = copy_small(s, next, out, &all, up, by);
        modes[i] = m.leaf;
        next = m.next;
    }
    ModesCopied { modes, next }
}

// Small modes, or a large one for all.
fn copy_luma(
    s: &[u8],
    p: Pipe,
    out: &mut [u8],
    large: bool,
    top: &[u8; 4],
    left: &[u8; 4],
) -> ModesCopied
    requires { Modes top.now × Modes left.now }
    ensures { Copies same (luma (not large) top.now left.now) s.now p out.old
        result.modes result.next out.new × Modes result.modes }
{
    if !large {
        return copy_sixteen(s, p, out, top, left);
    }
    let m = copy_tree(s, p, out, &[156u8, 163, 128], &LUMA);
    let next = m.next;
    ModesCopied {
        modes: [m.leaf; 16],
        next,
    }
}

// What stands before them, luma, chroma.
pub(crate) fn copy_modes(
    s: &[u8],
    p: Pipe,
    out: &mut [u8],
    a: Announced,
    top: &[u8; 4],
    left: &[u8; 4],
) -> ModesCopied
    requires { Modes top.now × Modes left.now }
    ensures { Copies luma_of (modes_of a top.now left.now) s.now p out.old
        result.modes result.next out.new × Modes result.modes }
{
    let segment = copy_segment(s, p, out, a);
    let skip = copy_skip(s, segment, out, a);
    let large = ask(s, skip, out, 145);
    let luma = copy_luma(s, large.next, out, large.bit, top, left);
    let chroma = copy_tree(s, luma.next, out, &[142u8, 114, 183], &CHROMA);
    let modes = luma.modes;
    ModesCopied {
        modes,
        next: chroma.next,
    }
}
