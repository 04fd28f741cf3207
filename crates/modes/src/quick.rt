// The modes of a macroblock over a wide reader, in the order of RFC 6386, section 19.3. Nothing is refused: the caller looks once, at the
// end, whether the partition's end was passed.
ghost use Rattle.std.specs.Prelude.{◌≡◌, true, false, List, ℕ, ◌<◌, length};
ghost use Rattle.numbers.specs.Lists.{Bytes};
ghost use Rattle.reader.specs.Trees.{walk};
ghost use Rattle.wide.specs.WideRuns.{WideReads};
ghost use Rattle.modes.specs.Modes.{Modes, b_tree, tree, segment, skip, prefix, large_mode_of, block_mode_of, small_modes_of, luma, modes_of, macroblock_of};
ghost use Rattle.modes.specs.Table.{renumbered_table};
ghost use Rattle.modes.specs.Quick.{last_of, fork_of};

use crate::answers::{Kinds, Prefix};
use crate::small::{all_probabilities, mode_above, mode_left, place};
use header::frame::Announced;
use wide::wide::{Bit, Wide};

// The last symbol of a walk: one of two leaves.
fn last(w: Wide, prob: u8, low: u8, high: u8) -> (u8, Wide)
    ensures { result ≡ last_of w prob low high }
{
    let b = w.even(prob);
    if b.on {
        return (high, b.next);
    }
    (low, b.next)
}

// A tree of two nodes below its root, with four leaves.
fn fork(s: &[u8], w: Wide, probs: &[u8], a: u8, b: u8, c: u8, d: u8) -> (u8, Wide)
    requires { length probs.now ≡ 3 }
    ensures { WideReads s.now 0 4 (tree probs.now (fork_of a b c d)) w result.0 result.1 }
{
    let g = w.fill(s).bit(probs[0]);
    if g.on {
        return last(g.next, probs[2], c, d);
    }
    last(g.next, probs[1], a, b)
}

// ---- before the modes

fn segment(s: &[u8], w: Wide, a: Announced) -> (u8, Wide)
    ensures { WideReads s.now 0 4 (segment a) w result.0 result.1 }
{
    if !a.map {
        return (0, w);
    }
    let probs = a.map_probabilities;
    fork(s, w, &probs, 0, 1, 2, 3)
}

// The skip flag, with eight bits loaded.
fn skip(w: Wide, a: Announced) -> Bit
    ensures { (s : List ℕ) → Bytes s → WideReads s 8 0 (skip a) w result.on result.next }
{
    if a.skips {
        return w.bit(a.skip_probability);
    }
    Bit { on: false, next: w }
}

// Filled for each symbol: so the compiler draws all of it in.
fn head(s: &[u8], w: Wide, a: Announced) -> (Prefix, Wide)
    ensures { WideReads s.now 0 12 (prefix a) w result.0 result.1 }
{
    let (segment, x) = segment(s, w, a);
    let k = skip(x.fill(s), a);
    let b = k.next.fill(s).bit(145);
    let p = Prefix {
        segment,
        skip: k.on,
        small: !b.on,
    };
    (p, b.next)
}

// ---- the modes

fn large(s: &[u8], w: Wide) -> (u8, Wide)
    ensures { WideReads s.now 0 4 (large_mode_of false) w result.0 result.1 }
{
    fork(s, w, &[156u8, 163, 128], 0, 2, 3, 1)
}

fn chroma(s: &[u8], w: Wide) -> (u8, Wide)
    ensures { WideReads s.now 0 4 (large_mode_of true) w result.0 result.1 }
{
    let a = w.fill(s).bit(142);
    if !a.on {
        return (0, a.next);
    }
    let b = a.next.bit(114);
    if !b.on {
        return (2, b.next);
    }
    last(b.next, 183, 3, 1)
}

// The tree of small modes by tests, not by its entries, since there are sixteen walks a macroblock. From node 4, with fifteen bits
// loaded: HE, RD, VR.
fn across(w: Wide, probs: &[u8]) -> (u8, Wide)
    requires { length probs.now ≡ 9 }
    ensures { ((s : List ℕ) → Bytes s → WideReads s 15 0 (walk 28 probs.now b_tree 4) w result.0 result.1)
        × (result.0 < 10) }
{
    let a = w.bit(probs[4]);
    if !a.on {
        return (3, a.next);
    }
    last(a.next, probs[5], 4, 5)
}

// From node 6, with 22 bits loaded: LD, VL, HD, HU.
fn slanted(w: Wide, probs: &[u8]) -> (u8, Wide)
    requires { length probs.now ≡ 9 }
    ensures { ((s : List ℕ) → Bytes s → WideReads s 22 0 (walk 28 probs.now b_tree 6) w result.0 result.1)
        × (result.0 < 10) }
{
    let a = w.bit(probs[6]);
    if !a.on {
        return (6, a.next);
    }
    let b = a.next.bit(probs[7]);
    if !b.on {
        return (7, b.next);
    }
    last(b.next, probs[8], 8, 9)
}

// From the root: DC, TM, VE, and on.
fn small_mode(s: &[u8], w: Wide, probs: &[u8]) -> (u8, Wide)
    requires { length probs.now ≡ 9 }
    ensures { WideReads s.now 0 8 (walk 32 probs.now b_tree 0) w result.0 result.1 × (result.0 < 10) }
{
    let a = w.fill(s).bit(probs[0]);
    if !a.on {
        return (0, a.next);
    }
    let b = a.next.bit(probs[1]);
    if !b.on {
        return (1, b.next);
    }
    let c = b.next.bit(probs[2]);
    if !c.on {
        return (2, c.next);
    }
    let d = c.next.bit(probs[3]);
    let u = d.next.fill(s);
    if d.on {
        slanted(u, probs)
    } else {
        across(u, probs)
    }
}

fn block(s: &[u8], w: Wide, top: u8, left: u8, all: &[u8]) -> (u8, Wide)
    requires top_bound { (top < 10) × (left < 10) }
    requires all_value { all.now ≡ renumbered_table }
    ensures { WideReads s.now 0 8 (block_mode_of top left) w result.0 result.1 × (result.0 < 10) }
{
    let at = place(top, left);
    let end = at + 9;
    small_mode(s, w, &all[at..end])
}

fn sixteen(s: &[u8], w: Wide, top: &[u8; 4], left: &[u8; 4]) -> ([u8; 16], Wide)
    requires { Modes top.now × Modes left.now }
    ensures { WideReads s.now 0 128 (small_modes_of top.now left.now) w result.0 result.1 }
{
    let all = all_probabilities();
    let mut modes = [0u8; 16];
    let mut next = w;
    for i in 0..16 {
        let up = mode_above(top, &modes, i);
        let by = mode_left(left, &modes, i);
        let (mode, after) = block(s, next, up, by, &all);
        modes[i] = mode;
        next = after;
    }
    (modes, next)
}

// Small modes, or a large one sixteen times.
fn luma(s: &[u8], w: Wide, small: bool, top: &[u8; 4], left: &[u8; 4]) -> ([u8; 16], Wide)
    requires { Modes top.now × Modes left.now }
    ensures { WideReads s.now 0 128 (luma small top.now left.now) w result.0 result.1 }
{
    if small {
        return sixteen(s, w, top, left);
    }
    let (mode, next) = large(s, w);
    ([mode; 16], next)
}

// Prefix, luma, chroma.
pub(crate) fn quick(
    s: &[u8],
    a: Announced,
    w: Wide,
    top: &[u8; 4],
    left: &[u8; 4],
) -> (Kinds, [u8; 16], Wide)
    requires { Modes top.now × Modes left.now }
    ensures { WideReads s.now 0 144 (modes_of a top.now left.now) w
        (macroblock_of result.0 result.1) result.2 }
{
    let (p, x) = head(s, w, a);
    let (modes, y) = luma(s, x, p.small, top, left);
    let (chroma, next) = chroma(s, y);
    let kinds = Kinds {
        segment: p.segment,
        skip: p.skip,
        small: p.small,
        chroma,
    };
    (kinds, modes, next)
}
