// Reads symbols until the bytes run out, and prints how many: what docs/SPEED.md counts instructions on. The first byte of
// standard input says how: 0 not at all, 1 one symbol after another, 2 leaves of a tree by an `if` chain over `symbol`, 3 the
// same leaves by `walk_tree`. `chain` is the worked example of such a chain: it is proved equal to the walk of its tree.
#![tactic(auto)]

ghost use Rattle.std.specs.Prelude.{◌≡◌, length};
ghost use Rattle.reader.specs.Reading.{Valid, symbol, run};
ghost use Rattle.reader.specs.Trees.{walk_of};
ghost use Rattle.try_counted.specs.Segment.{segment_tree, last_of};

use reader::boolean;
use reader::boolean::{Reader, open};
use reader::trees::walk_tree;
use std::io;
use std::io::Read;

// The segment tree (RFC 6386, section 10).
const TREE: [i16; 6] = [1, 2, 0, -1, -2, -3];

// The probabilities of its three nodes.
const PROBS: [u8; 3] = [120, 100, 180];

// A node with two leaves.
fn last(s: &[u8], r: Reader, prob: u8, low: u16, high: u16) -> boolean::Read<u16>
    requires { Valid s.now r }
    ensures { result ≡ last_of low high (run (symbol prob) s.now r) }
{
    let (bit, next) = r.symbol(s, prob)?;
    Ok((if bit { high } else { low }, next))
}

// A walk of the segment tree, node by node.
fn chain(s: &[u8], r: Reader, probs: &[u8]) -> boolean::Read<u16>
    requires valid { Valid s.now r }
    requires probs_len { length probs.now ≡ 3 }
    ensures { result ≡ walk_of 32 s.now probs.now segment_tree 0 r }
{
    let (high, next) = r.symbol(s, probs[0])?;
    if high {
        last(s, next, probs[2], 2, 3)
    } else {
        last(s, next, probs[1], 0, 1)
    }
}

fn symbols(s: &[u8], r: Reader) -> usize {
    let mut next = r;
    for n in 0..1000000 {
        let Ok((_, after)) = next.symbol(s, 120) else {
            return n;
        };
        next = after;
    }
    1000000
}

fn leaves(s: &[u8], r: Reader) -> usize
    requires { Valid s.now r }
{
    let mut next = r;
    for n in 0..1000000 {
        let Ok((_, after)) = chain(s, next, &PROBS) else {
            return n;
        };
        next = after;
    }
    1000000
}

fn walks(s: &[u8], r: Reader) -> usize {
    let mut next = r;
    for n in 0..1000000 {
        let Ok((_, after)) = walk_tree(s, next, &PROBS, &TREE, 0).answer else {
            return n;
        };
        next = after;
    }
    1000000
}

fn counted(how: u8, s: &[u8]) -> usize {
    let r = open(s);
    match how {
        1 => symbols(s, r),
        2 => leaves(s, r),
        3 => walks(s, r),
        _ => 0,
    }
}

// Standard input's first 65536 bytes.
fn main(rt: HostRuntime) -> io::Result<()> {
    let mut input = [0; 65536];
    // `copy` moves no more than `take` lets through, but doesn't say so.
    let n = io::copy(&mut rt.reader().take(65536), &mut &mut input[..])?.min(65536) as usize;
    if n < 1 {
        return Ok(());
    }
    let how = input[0];
    println!(rt; "{}", counted(how, &input[1..n]))
}
