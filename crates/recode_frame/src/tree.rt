// A tree of symbols, read and written again (RFC 6386, section 8.1), as a table of where each bit leads: a node, or the number of nodes and
// the leaf.
ghost use Rattle.std.specs.Prelude.{List, ℕ, ◌<◌, ◌≤◌, ℤ, length};
ghost use Rattle.modes.specs.Modes.{tree};
ghost use Rattle.recode.specs.Copies.{Copies, same};
ghost use Rattle.recode_frame.specs.ModeCopies.{Leading, Led, Leaves};

use recode::pipe::{Pipe, ask};

// A leaf, and the pipe after it.
#[derive(Clone, Copy)]
pub(crate) struct LeafCopied {
    pub leaf: u8,
    pub next: Pipe,
}

// mb_segment_tree
pub(crate) const SEGMENTS: [u8; 6] = [1, 2, 3, 4, 5, 6];

// kf_ymode_tree below its root
pub(crate) const LUMA: [u8; 6] = [1, 2, 3, 5, 6, 4];

// uv_mode_tree
pub(crate) const CHROMA: [u8; 6] = [3, 1, 5, 2, 6, 4];

// bmode_tree
pub(crate) const SMALL: [u8; 18] = [
    9, 1, 10, 2, 11, 3, 4, 6, 12, 5, 13, 14, 15, 7, 16, 8, 17, 18,
];

// From the root to a leaf, with a probability for each node.
pub(crate) fn copy_tree(s: &[u8], p: Pipe, out: &mut [u8], probs: &[u8], leads: &[u8]) -> LeafCopied
    requires leading { Leading (length probs.now) leads.now }
    requires probs_nonzero { (0 < length probs.now) × (length probs.now ≤ 32) }
    ensures { ((t : List ℤ) → Led (length probs.now) leads.now t
        → Copies same (tree probs.now t) s.now p out.old result.leaf result.next out.new)
        × ((m : ℕ) → 0 < m → Leaves (length probs.now) m leads.now → result.leaf < m) }
{
    let n = probs.len();
    let mut next = p;
    let mut i = 0;
    // Stays a while: i goes down the tree, not by one.
    while i < n {
        let a = ask(s, next, out, probs[i]);
        i = usize::from(leads[i + i + usize::from(a.bit)]);
        next = a.next;
    }
    LeafCopied {
        leaf: (i - n) as u8,
        next,
    }
}
