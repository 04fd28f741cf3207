// Runs every case of the corpus (data/) and prints for each its name, its case line and, unless the file is malformed, the hashes
// of Y, U, V, column memory, mode memory and strengths after the picture call.
#![tactic(auto)]

ghost use Rattle.std.specs.Prelude.{◌≡◌, ◌<◌, length};
ghost use Rattle.std.specs.Str.{IsAscii};

use casefile::run::{Hashes, Ran, run};
use std::io::Read;
use std::rt::Files;
use std::{fs, io, str};

fn show_hash(rt: &impl Print, h: u64) -> io::Result<()> {
    print!(rt; " {h:016x}")
}

fn show_hashes(rt: &impl Print, h: Hashes) -> io::Result<()> {
    show_hash(rt, h.y)?;
    show_hash(rt, h.u)?;
    show_hash(rt, h.v)?;
    show_hash(rt, h.columns)?;
    show_hash(rt, h.modes)?;
    show_hash(rt, h.strengths)
}

fn show_ran(rt: &impl Print, r: Ran) -> io::Result<()> {
    let sums = r.sums;
    print!(rt; " {} {} {} {} {}", r.number, r.k, sums.y, sums.u, sums.v)?;
    if r.number != 10 {
        let hashes = r.hashes;
        show_hashes(rt, hashes)?;
    }
    print!(rt; "\n")
}

// One byte more than the longest case file.
fn buffer() -> [u8; 65537]
    ensures { 65537 ≡ length result }
{
    [0; 65537]
}

// The case of this name; false where there is none.
fn one(rt: &(impl Files + Print), name: &str) -> io::Result<bool> {
    let Ok(opened) = fs::open(rt, name) else {
        return Ok(false);
    };
    let mut file = buffer();
    // `copy` moves no more than `take` lets through, but doesn't say so.
    let n = io::copy(&mut opened.take(65537), &mut &mut file[..])?.min(65537) as usize;
    print!(rt; "{name}")?;
    show_ran(rt, run(&file[..n]))?;
    Ok(true)
}

fn digit(n: usize) -> u8
    ensures { result < 128 }
{
    (48 + n % 10) as u8
}

fn named(n: usize) -> [u8; 15]
    ensures len { 15 ≡ length result }
    ensures ascii { IsAscii result }
{
    [
        b'n',
        b'a',
        b'm',
        b'e',
        b'd',
        b'/',
        digit(n / 1000),
        digit(n / 100),
        digit(n / 10),
        digit(n),
        b'.',
        b'c',
        b'a',
        b's',
        b'e',
    ]
}

fn in_folder(f: [u8; 4], n: usize) -> [u8; 14]
    ensures len { 14 ≡ length result }
    ensures ascii { IsAscii f → IsAscii result }
{
    [
        f[0],
        f[1],
        f[2],
        f[3],
        b'/',
        digit(n / 1000),
        digit(n / 100),
        digit(n / 10),
        digit(n),
        b'.',
        b'c',
        b'a',
        b's',
        b'e',
    ]
}

// Case n of a folder: 0 is named/, 1 real/, 2 fuzz/.
fn numbered(rt: &(impl Files + Print), folder: usize, n: usize) -> io::Result<bool> {
    if folder == 0 {
        let name = named(n);
        return one(rt, str::from_utf8(&name).unwrap());
    }
    if folder == 1 {
        let name = in_folder([b'r', b'e', b'a', b'l'], n);
        return one(rt, str::from_utf8(&name).unwrap());
    }
    let name = in_folder([b'f', b'u', b'z', b'z'], n);
    one(rt, str::from_utf8(&name).unwrap())
}

fn all(rt: &(impl Files + Print), folder: usize) -> io::Result<()> {
    for n in 0..10000 {
        if !numbered(rt, folder, n)? {
            return Ok(());
        }
    }
    Ok(())
}

fn main(rt: HostRuntime) -> io::Result<()> {
    all(&rt, 0)?;
    all(&rt, 1)?;
    all(&rt, 2)
}
