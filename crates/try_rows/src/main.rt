// Runs the worked numbers of the scope through the code and prints them: those of crates/promises/specs/Worked.antt, which are
// proved of the definitions, and those that are only run.
#![tactic(auto)]

use coefficients::block::decode;
use filter::filter;
use numbers::wrap16;
use reader::boolean::open;
use std::io;
use transform::transform;

fn show(rt: &impl Print, v: i32) -> io::Result<()> {
    print!(rt; " {v}")
}

fn show_sample(rt: &impl Print, x: u8) -> io::Result<()> {
    print!(rt; " {x}")
}

// A transform of a DC alone: its first and its last sample.
fn dc(rt: &impl Print, d: i32, walsh: bool) -> io::Result<()> {
    let mut c = [0; 16];
    c[0] = d;
    let t = transform(&c, walsh);
    let samples = t.samples;
    if walsh {
        print!(rt; "walsh")?;
    } else {
        print!(rt; "dct")?;
    }
    show(rt, d)?;
    show(rt, samples[0])?;
    show(rt, samples[15])?;
    print!(rt; "\n")
}

fn product(rt: &impl Print, x: i64) -> io::Result<()> {
    let Some(v) = wrap16(x) else {
        return Ok(());
    };
    print!(rt; "product")?;
    show(rt, v)?;
    print!(rt; "\n")
}

fn edge(rt: &impl Print, simple: bool, macroblock: bool, limit: u8) -> io::Result<()> {
    let e = [100, 100, 100, 100, 110, 110, 110, 110];
    let out = filter(&e, simple, macroblock, limit, 0, 0);
    print!(rt; "edge")?;
    for x in out {
        show_sample(rt, x)?;
    }
    print!(rt; "\n")
}

// A block's kind: Y2, then sixteen of luma, then chroma.
fn kind(i: usize) -> usize {
    match i {
        0 => 1,
        1..=16 => 0,
        _ => 2,
    }
}

fn first(i: usize) -> usize {
    usize::from(kind(i) == 0)
}

// The blocks of a macroblock that a token partition holds where every probability is 128: the number of the one that is refused.
fn held(s: &[u8]) -> usize {
    let table = [128u8; 1056];
    let mut out = [0; 16];
    let mut r = open(s);
    for i in 0..25 {
        let b = decode(s, r, &table, kind(i), 0, first(i), 1, 1, &mut out);
        let Ok((_, next)) = b.answer else {
            return i;
        };
        r = next;
    }
    25
}

fn zeros(rt: &impl Print, s: &[u8]) -> io::Result<()> {
    println!(rt; "zeros {} block {}", s.len(), held(s))
}

fn main(rt: HostRuntime) -> io::Result<()> {
    dc(&rt, 3, false)?;
    dc(&rt, 4, false)?;
    dc(&rt, -4, false)?;
    dc(&rt, -5, false)?;
    dc(&rt, 5, true)?;
    dc(&rt, -4, true)?;
    dc(&rt, 4, true)?;
    dc(&rt, -3, true)?;
    product(&rt, 32752)?;
    product(&rt, 32768)?;
    product(&rt, -32768)?;
    product(&rt, 65536)?;
    product(&rt, 331898)?;
    edge(&rt, false, true, 24)?;
    edge(&rt, false, false, 24)?;
    edge(&rt, true, false, 24)?;
    edge(&rt, false, true, 25)?;
    edge(&rt, false, false, 25)?;
    edge(&rt, true, false, 25)?;
    zeros(&rt, &[0; 0])?;
    zeros(&rt, &[0; 1])?;
    zeros(&rt, &[0; 2])?;
    zeros(&rt, &[0; 3])?;
    zeros(&rt, &[0; 4])
}
