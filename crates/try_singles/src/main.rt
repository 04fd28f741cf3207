// Decodes single macroblocks and prints what each gives: the answer's number, the sums of the three planes, the strengths, the
// modes, what is left for the macroblocks around it, and where the readers stand. Standard input is a header and a list of cases;
// tests/model/singles.py, which also made the expected lines, says how.
#![tactic(auto)]

ghost use Rattle.std.specs.Prelude.{◌≡◌, ◌+◌, ◌*◌, ◌<◌, ◌≤◌, pos, negsuc, length, get_or};
ghost use Rattle.numbers.specs.In.{In};
ghost use Rattle.macroblock.specs.Macroblock.{finish_number_of};
ghost use Rattle.try_singles.specs.Cases.{entry_of, entries_of, samples_of, sum_to, no_frame, frame_for};

use coefficients::block::probabilities;
use filter::strengths::Strength;
use header::entries::ENTRY_COUNT;
use header::frame::{Announced, Frame, take};
use header::quantizers::Factors;
use macroblock::arguments::{Around, Place, Readers, SymbolCounts};
use macroblock::ending::{Outcome, Unfinished};
use modes::answers::Kinds;
use modes::contexts::Context;
use reader::boolean::open;
use std::io;
use std::io::Read;
use whole::decode;

// ---- numbers of two bytes
fn pair(list: &[u8], at: usize) -> usize
    requires { at + 2 ≤ length list.now }
    ensures { (result ≡ get_or list.now at 0 * 256 + get_or list.now (at + 1) 0) × (result < 65536) }
{
    usize::from(list[at]) * 256 + usize::from(list[at + 1])
}

fn entry(a: u8, b: u8) -> i32
    ensures { (result ≡ entry_of a b) × In (negsuc 32767) (pos 32767) result }
{
    256 * a as i32 + b as i32 - 32768
}

fn entries(list: &[u8]) -> [i32; ENTRY_COUNT]
    requires { 2192 ≤ length list.now }
    ensures { result ≡ entries_of list.now }
{
    let mut h = [0; ENTRY_COUNT];
    for i in 0..ENTRY_COUNT {
        h[i] = entry(list[2 * i], list[2 * i + 1]);
    }
    h
}

// ---- planes: filled from a seed, and summed
fn fill(p: &mut [u8], seed: u32)
    requires { seed ≤ 65537 }
    ensures { p.new ≡ samples_of (length p.old) seed }
{
    let mut n = seed;
    for x in p.iter_mut() {
        n = (n * 75 + 74) % 65537;
        *x = (n % 256) as u8;
    }
}

fn sum(p: &[u8]) -> u64
    ensures { result ≡ sum_to p.now (length p.now) }
{
    let mut s = 0;
    for x in p {
        s = (s * 257 + u64::from(*x)) % 4294967291;
    }
    s
}

// ---- what is printed
fn digits(rt: &impl Print, l: &[u8]) -> io::Result<()> {
    for x in l {
        print!(rt; "{x}")?;
    }
    Ok(())
}

fn show_strength(rt: &impl Print, t: Strength) -> io::Result<()> {
    print!(rt; " {} {} {} {}", t.limit, t.inner, t.threshold, t.inside)
}

fn show_kinds(rt: &impl Print, k: Kinds) -> io::Result<()> {
    print!(rt;
        " {} {} {} {}",
        k.segment,
        u8::from(k.skip),
        u8::from(k.small),
        k.chroma
    )
}

fn show_context(rt: &impl Print, c: Context) -> io::Result<()> {
    print!(rt; " ")?;
    digits(rt, &c.modes)?;
    digits(rt, &c.flags)
}

fn number(f: Result<Readers, Unfinished>) -> u64
    ensures { result ≡ finish_number_of f }
{
    match f {
        Ok(_) => 0,
        Err(Unfinished::NoModes) => 6,
        Err(Unfinished::NoTokens) => 7,
        Err(Unfinished::Refused) => 9,
    }
}

fn show_places(rt: &impl Print, f: Result<Readers, Unfinished>) -> io::Result<()> {
    let Ok(readers) = f else {
        return print!(rt; " 0 0");
    };
    print!(rt; " {} {}", readers.first.at, readers.token.at)
}

fn show_reads(rt: &impl Print, r: SymbolCounts) -> io::Result<()> {
    println!(rt; " {} {}", r.first, r.tokens)
}

fn show_outcome(rt: &impl Print, w: Outcome, y: &[u8], u: &[u8], v: &[u8]) -> io::Result<()> {
    print!(rt; "{} {} {} {}", number(w.answer), sum(y), sum(u), sum(v))?;
    show_strength(rt, w.strength)?;
    show_kinds(rt, w.kinds)?;
    print!(rt; " ")?;
    digits(rt, &w.modes)?;
    show_context(rt, w.top)?;
    show_context(rt, w.left)?;
    show_places(rt, w.answer)
}

// ---- the cases
// Four modes and nine flags, a byte each.
fn context(b: &[u8]) -> Context
    requires { length b.now ≡ 13 }
{
    Context {
        modes: [b[0], b[1], b[2], b[3]],
        flags: [b[4], b[5], b[6], b[7], b[8], b[9], b[10], b[11], b[12]],
    }
}

// One case: 34 bytes, and its two partitions opened.
fn one(
    rt: &impl Print,
    case: &[u8],
    first: &[u8],
    tokens: &[u8],
    readers: Readers,
    frame: Frame,
    table: &[u8],
) -> io::Result<()>
    requires { length case.now ≡ 34 }
{
    let seed = pair(case, 2) as u32;
    let mut y = [0u8; 1536];
    let mut u = [0u8; 384];
    let mut v = [0u8; 384];
    fill(&mut y, seed);
    fill(&mut u, seed + 1);
    fill(&mut v, seed + 2);
    let top = context(&case[8..21]);
    let left = context(&case[21..34]);
    let around = Around { top, left };
    let place = Place {
        column: usize::from(case[0]),
        row: usize::from(case[1]),
        width: 48,
    };
    let read = decode(
        first, tokens, readers, frame, table, around, place, &mut y, &mut u, &mut v,
    );
    show_outcome(rt, read.outcome, &y, &u, &v)?;
    show_reads(rt, read.reads)
}

fn opened(
    rt: &impl Print,
    case: &[u8],
    first: &[u8],
    tokens: &[u8],
    frame: Frame,
    table: &[u8],
) -> io::Result<()>
    requires { length case.now ≡ 34 }
{
    let readers = Readers {
        first: open(first),
        token: open(tokens),
    };
    one(rt, case, first, tokens, readers, frame, table)
}

fn cases(rt: &impl Print, list: &[u8], frame: Frame, table: &[u8]) -> io::Result<()> {
    let mut at = 0;
    // Stays a while: each case is as long as it says.
    while 34 <= list.len() - at {
        let from = at + 34;
        let middle = from + pair(list, at + 4);
        let end = middle + pair(list, at + 6);
        if list.len() < end {
            return Ok(());
        }
        opened(
            rt,
            &list[at..from],
            &list[from..middle],
            &list[middle..end],
            frame,
            table,
        )?;
        at = end;
    }
    Ok(())
}

fn no_frame() -> Frame
    ensures { result ≡ no_frame }
{
    let none = Factors {
        ydc: 0,
        yac: 0,
        y2dc: 0,
        y2ac: 0,
        uvdc: 0,
        uvac: 0,
    };
    Frame {
        factors: [none; 4],
        large: [0; 4],
        small: [0; 4],
        sharp: 0,
        announced: Announced {
            map: false,
            map_probabilities: [0; 3],
            skips: false,
            skip_probability: 0,
        },
    }
}

// The cases of a header that is refused are decoded too.
#[tactic(auto, unfolding(crate::specs::Cases::frame_for))]
fn frame_for(h: &[i32]) -> Frame
    ensures { result ≡ frame_for h.now }
{
    match take(h) {
        Some(frame) => frame,
        None => no_frame(),
    }
}

fn all(rt: &impl Print, list: &[u8]) -> io::Result<()> {
    if list.len() < 2192 {
        return Ok(());
    }
    let h = entries(list);
    let Some(table) = probabilities(&h) else {
        return Ok(());
    };
    cases(rt, &list[2192..], frame_for(&h), &table)
}

// Standard input's first 65536 bytes.
fn main(rt: HostRuntime) -> io::Result<()> {
    let mut list = [0; 65536];
    // `copy` moves no more than `take` lets through, but doesn't say so.
    let n = io::copy(&mut rt.reader().take(65536), &mut &mut list[..])?.min(65536) as usize;
    all(&rt, &list[..n])
}
