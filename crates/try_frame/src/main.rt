// Reads a key frame from standard input and prints what is taken of it: the number, the true sizes, the tile's sides and the filter kind,
// the partitions, the reader and the 1096 entries, which stay 77 where the frame is refused.
#![tactic(auto)]

ghost use Rattle.std.specs.Prelude.{◌≡◌, length};

use frame::take::Answer;
use header::entries::probability;
use std::io;
use std::io::Read;
use take::take_into;
use tile::{Span, Tile};

fn show(rt: &impl Print, n: u64) -> io::Result<()> {
    print!(rt; " {n}")
}

fn show_span(rt: &impl Print, s: Span) -> io::Result<()> {
    show(rt, s.start as u64)?;
    show(rt, s.len as u64)
}

fn show_tokens(rt: &impl Print, t: Tile) -> io::Result<()> {
    for span in t.tokens.iter().take(t.count) {
        print!(rt; "\ntoken")?;
        show_span(rt, *span)?;
    }
    Ok(())
}

fn show_tile(rt: &impl Print, t: Tile) -> io::Result<()> {
    print!(rt; "\nfirst")?;
    show_span(rt, t.first)?;
    show_tokens(rt, t)?;
    print!(rt; "\nreader")?;
    let r = t.reader;
    show(rt, r.at as u64)?;
    show(rt, r.range as u64)?;
    show(rt, r.shifts as u64)?;
    show(rt, r.window as u64)
}

fn show_answer(rt: &impl Print, a: Answer) -> io::Result<()> {
    print!(rt; "{}\nsize", a.number)?;
    let shown = a.shown;
    show(rt, shown.width as u64)?;
    show(rt, shown.height as u64)?;
    print!(rt; " sides")?;
    let t = a.tile;
    show(rt, t.width as u64)?;
    show(rt, t.height as u64)?;
    if a.simple {
        print!(rt; " simple")?;
    }
    show_tile(rt, t)?;
    print!(rt; "\n")
}

// An entry in -255..255.
fn show_entry(rt: &impl Print, x: i32) -> io::Result<()> {
    let p = probability(x);
    if x < 0 {
        return print!(rt; " -{}", 256 - p as u64);
    }
    show(rt, p as u64)
}

fn show_entries(rt: &impl Print, header: &[i32]) -> io::Result<()> {
    for x in header {
        show_entry(rt, *x)?;
    }
    print!(rt; "\n")
}

fn buffer() -> [u8; 65537]
    ensures { 65537 ≡ length result }
{
    [0; 65537]
}

fn main(rt: HostRuntime) -> io::Result<()> {
    let mut file = buffer();
    let mut header = [77i32; 1096];
    // `copy` moves no more than `take` lets through, but doesn't say so.
    let n = io::copy(&mut rt.reader().take(65537), &mut &mut file[..])?.min(65537) as usize;
    show_answer(&rt, take_into(&file[..n], &mut header))?;
    show_entries(&rt, &header)
}
