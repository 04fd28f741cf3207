// A macroblock's large luma mode and its chroma mode (RFC 6386, sections 11.2 to 11.4), and the tree of segments (section 10).
ghost use Rattle.std.specs.Prelude.{◌≡◌, true};
ghost use Rattle.reader.specs.Reading.{Valid, to_read};
ghost use Rattle.reader.specs.Trees.{tree_of};
ghost use Rattle.modes.specs.Modes.{tree, large_mode_of, main_answer, Told, byte_leaves};

use reader::boolean::{Counted, Read, Reader, Unread, valid};
use reader::trees::walk_tree;

pub(crate) const SEG_TREE: [i16; 6] = [1, 2, 0, -1, -2, -3];

pub(crate) const Y_TREE: [i16; 6] = [1, 2, 0, -2, -3, -1];

pub(crate) const UV_TREE: [i16; 6] = [0, 1, -2, 2, -3, -1];

// A constant tree, walked from its root; its leaves fit a byte.
pub(crate) fn coded(s: &[u8], r: Reader, probs: &[u8], t: &[i16]) -> Counted<u8>
    requires valid { Valid s.now r }
    requires t_value { tree_of probs.now t.now 0 ≡ true }
    requires t_value_2 { byte_leaves t.now ≡ true }
    ensures { Told to_read 32 (tree probs.now t.now) s.now r result.answer result.reads }
{
    let w = walk_tree(s, r, probs, t, 0);
    let reads = w.reads;
    let Ok((v, next)) = w.answer else {
        return Counted {
            answer: Err(Unread::Missing),
            reads,
        };
    };
    Counted {
        answer: Ok((v as u8, next)),
        reads,
    }
}

// The two trees with their fixed probabilities.
pub(crate) fn large_mode(s: &[u8], r: Reader, chroma: bool) -> Counted<u8>
    requires { Valid s.now r }
    ensures { Told to_read 3 (large_mode_of chroma) s.now r result.answer result.reads }
{
    if chroma {
        return coded(s, r, &[142u8, 114, 183], &UV_TREE);
    }
    coded(s, r, &[156u8, 163, 128], &Y_TREE)
}

// The large luma mode of a macroblock, or its chroma mode.
pub fn main_mode(s: &[u8], r: Reader, chroma: bool) -> Read<u8>
    ensures { result ≡ main_answer s.now r chroma }
{
    if !valid(s, r) {
        return Err(Unread::Refused);
    }
    large_mode(s, r, chroma).answer
}
