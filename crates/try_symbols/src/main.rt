// Runs the reader on a list of byte strings and prints what each gives: bits, or the leaf of a tree, or a number, and the reader
// after it. `m` is a missing byte, 9 a refusal. The list is standard input, 64 bytes a case
// (tests/model/symbols.py, which also made the expected lines, says how).
#![tactic(auto)]

ghost use Rattle.std.specs.Prelude.{◌≡◌, length};

use reader::boolean::{Reader, Unread, open};
use reader::extra::extra_bits;
use reader::trees::walk_tree;
use std::io;
use std::io::Read;

// The token tree (RFC 6386, section 13.2).
const TREE: [i16; 22] = [
    0, 1, -1, 2, -2, 3, 4, 6, -3, 5, -4, -5, 7, 8, -6, -7, 9, 10, -8, -9, -10, -11,
];

fn show(rt: &impl Print, n: u32) -> io::Result<()> {
    print!(rt; " {n}")
}

fn show_reader(rt: &impl Print, r: Reader) -> io::Result<()> {
    print!(rt; " {}", r.at)?;
    show(rt, r.range)?;
    show(rt, r.shifts)?;
    show(rt, r.window)
}

// As a text: printing it as a number takes several times as long.
fn show_bit(rt: &impl Print, bit: bool) -> io::Result<()> {
    if bit {
        print!(rt; "1")
    } else {
        print!(rt; "0")
    }
}

fn show_unread(rt: &impl Print, why: Unread) -> io::Result<()> {
    match why {
        Unread::Missing => print!(rt; "m"),
        Unread::Refused => print!(rt; "9"),
    }
}

// One symbol for each probability, until a byte is missing.
fn bits(rt: &impl Print, s: &[u8], r: Reader, probs: &[u8]) -> io::Result<()> {
    let mut next = r;
    for prob in probs {
        match next.symbol(s, *prob) {
            Ok((bit, after)) => {
                show_bit(rt, bit)?;
                next = after;
            }
            Err(why) => return show_unread(rt, why),
        }
    }
    show_reader(rt, next)
}

fn number(rt: &impl Print, s: &[u8], r: Reader, probs: &[u8]) -> io::Result<()> {
    match extra_bits(s, r, probs).answer {
        Ok((v, after)) => {
            print!(rt; "{v}")?;
            show_reader(rt, after)
        }
        Err(why) => show_unread(rt, why),
    }
}

fn leaf(rt: &impl Print, s: &[u8], r: Reader, probs: &[u8], start: usize) -> io::Result<()> {
    match walk_tree(s, r, probs, &TREE, start).answer {
        Ok((v, after)) => {
            print!(rt; "{v}")?;
            show_reader(rt, after)
        }
        Err(why) => show_unread(rt, why),
    }
}

// The reader that a case of kind 3 gives.
fn given(case: &[u8]) -> Reader
    requires { length case.now ≡ 64 }
{
    Reader {
        at: usize::from(case[50]),
        range: u32::from(case[51]) * 256 + u32::from(case[52]),
        shifts: u32::from(case[53]),
        window: (u32::from(case[54]) * 256 + u32::from(case[55])) * 256 + u32::from(case[56]),
    }
}

fn run(rt: &impl Print, case: &[u8]) -> io::Result<()>
    requires { length case.now ≡ 64 }
{
    let kind = case[0];
    let size = usize::from(case[1]).min(30);
    let count = usize::from(case[32]).min(17);
    let end = 2 + size;
    let past = 33 + count;
    let s = &case[2..end];
    let probs = &case[33..past];
    if kind == 3 {
        return bits(rt, s, given(case), probs);
    }
    let r = open(s);
    if kind == 0 {
        bits(rt, s, r, probs)
    } else if kind == 1 {
        number(rt, s, r, probs)
    } else {
        leaf(rt, s, r, probs, usize::from(case[57]))
    }
}

fn all(rt: &impl Print, list: &[u8]) -> io::Result<()> {
    for case in list.chunks_exact(64) {
        run(rt, case)?;
        print!(rt; "\n")?;
    }
    Ok(())
}

// Standard input's first 4096 bytes.
fn main(rt: HostRuntime) -> io::Result<()> {
    let mut list = [0; 4096];
    // `copy` moves no more than `take` lets through, but doesn't say so.
    let n = io::copy(&mut rt.reader().take(4096), &mut &mut list[..])?.min(4096) as usize;
    all(&rt, &list[..n])
}
