// The case program: one case file on standard input, one line on standard output: the number, the macroblocks finished, the sums
// of Y, U and V. What it computes is `casefile::run::run`.
#![tactic(auto)]

use casefile::run::run;
use std::io;
use std::io::Read;

// One byte more than the longest case file.
fn buffer() -> [u8; 65537] {
    [0; 65537]
}

fn main(rt: HostRuntime) -> io::Result<()> {
    let mut file = buffer();
    // `copy` moves no more than `take` lets through, but doesn't say so.
    let n = io::copy(&mut rt.reader().take(65537), &mut &mut file[..])?.min(65537) as usize;
    let r = run(&file[..n]);
    let sums = r.sums;
    println!(rt; "{} {} {} {} {}", r.number, r.k, sums.y, sums.u, sums.v)
}
