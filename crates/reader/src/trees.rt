// Trees of symbols (RFC 6386, section 8.1). Node i is entries 2i and 2i + 1: positive names a node, zero or less a leaf.
ghost use Rattle.std.specs.Prelude.{◌≡◌, ◌<◌, pos, length, get_or};
ghost use Rattle.reader.specs.Reading.{Valid, count};
ghost use Rattle.reader.specs.Trees.{branch_of, at_of, nodes_of, tree_step_of, walk, walk_of, leads_of, tree_of, walk_answer, Tree};
ghost use Rattle.reader.specs.Counts.{tree_count};

use crate::boolean::{Counted, Read, Reader, Unread, valid};

// What an entry is. Public so that the laws on walks of a known tree can be stated of it elsewhere.
#[derive(Clone, Copy, Debug, PartialEq, Eq)]
pub enum Branch {
    Leaf(u16),
    Node(usize),
}

fn at(i: usize, bit: bool) -> usize
    requires { i < 65536 }
    ensures { result ≡ at_of i bit }
{
    i + i + usize::from(bit)
}

// The entry at k. The one place where a signed entry is read.
fn branch_at(tree: &[i16], k: usize) -> Branch
    requires { k < length tree.now }
    ensures { result ≡ branch_of (get_or tree.now k (pos 0)) }
{
    let e = tree[k];
    if 0 < e {
        Branch::Node(e as usize)
    } else {
        Branch::Leaf(e.unsigned_abs())
    }
}

// One step down from node i.
fn down(s: &[u8], r: Reader, probs: &[u8], tree: &[i16], i: usize) -> Read<Branch>
    requires valid { Valid s.now r }
    requires tree { Tree probs.now tree.now }
    requires i_bound { i < nodes_of tree.now }
    ensures { result ≡ tree_step_of s.now probs.now tree.now i r }
{
    let (bit, next) = r.read(s, probs[i])?;
    Ok((branch_at(tree, at(i, bit)), next))
}

// Walks from node i and counts. In a tree it ends before the limit, which only bounds the loop.
pub(crate) fn walk(s: &[u8], r: Reader, probs: &[u8], tree: &[i16], i: usize) -> Counted<u16>
    requires valid { Valid s.now r }
    requires tree { Tree probs.now tree.now }
    requires i_bound { i < nodes_of tree.now }
    ensures { (result.answer ≡ walk_of 32 s.now probs.now tree.now i r)
        × (result.reads ≡ count (walk 32 probs.now tree.now i) s.now r) }
{
    let mut next = r;
    let mut node = i;
    for reads in 0..32 {
        match down(s, next, probs, tree, node) {
            Ok((Branch::Leaf(v), after)) => {
                return Counted {
                    answer: Ok((v, after)),
                    reads: reads + 1,
                };
            }
            Ok((Branch::Node(j), after)) => {
                node = j;
                next = after;
            }
            Err(why) => {
                return Counted {
                    answer: Err(why),
                    reads,
                };
            }
        }
    }
    Counted {
        answer: Ok((0, next)),
        reads: 32,
    }
}

// Whether the entry at k, of node k / 2, is a leaf or a later one of n nodes.
fn leads(tree: &[i16], n: usize, k: usize) -> bool
    requires { k < length tree.now }
    ensures { result ≡ leads_of n k (branch_of (get_or tree.now k (pos 0))) }
{
    match branch_at(tree, k) {
        Branch::Leaf(_) => true,
        Branch::Node(j) => (k / 2 < j) & (j < n),
    }
}

// Whether a tree may be walked from a node, with these probabilities.
fn tree_fine(probs: &[u8], tree: &[i16], start: usize) -> bool
    ensures { result ≡ tree_of probs.now tree.now start }
{
    let n = tree.len() / 2;
    if 32 <= n {
        return false;
    }
    if tree.len() != n + n {
        return false;
    }
    if probs.len() < n {
        return false;
    }
    if n <= start {
        return false;
    }
    for k in 0..n + n {
        if !leads(tree, n, k) {
            return false;
        }
    }
    true
}

// Walks down a tree from a node to a leaf. Refused where the reader or the tree is out of range.
pub fn walk_tree(s: &[u8], r: Reader, probs: &[u8], tree: &[i16], start: usize) -> Counted<u16>
    ensures { (result.answer ≡ walk_answer s.now probs.now tree.now start r)
        × (result.reads ≡ tree_count s.now probs.now tree.now start r) }
{
    if !(valid(s, r) & tree_fine(probs, tree, start)) {
        return Counted {
            answer: Err(Unread::Refused),
            reads: 0,
        };
    }
    walk(s, r, probs, tree, start)
}
