// The layout of a case file, big-endian: version (1 byte); length of the rest (4); width, height (2 each); count (1); 1096
// header entries (2 each, signed); the lengths of the first partition and of `count` token partitions (4 each); their bytes.
ghost use Rattle.std.specs.Prelude.{◌≡◌, ◌+◌, ◌*◌, ◌<◌, ◌≤◌, length};
ghost use Rattle.numbers.specs.Lists.{byte_at};
ghost use Rattle.casefile.specs.CaseFile.{half_at, word_at, case_width, case_height, case_count, case_signed, case_header, length_at, start_at, partition_at, slot_of, case_spans, case_whole, well_formed_of, case_tile};

use reader::boolean::open;
use tile::partitions::part;
use tile::{Span, Tile};

fn byte(file: &[u8], at: usize) -> usize
    requires { at < length file.now }
    ensures { (result ≡ byte_at file.now at) × (result < 256) }
{
    usize::from(file[at])
}

fn half(file: &[u8], at: usize) -> usize
    requires { at + 1 < length file.now }
    ensures { (result ≡ half_at file.now at) × (result < 65536) }
{
    byte(file, at) * 256 + byte(file, at + 1)
}

fn word(file: &[u8], at: usize) -> usize
    requires { at + 3 < length file.now }
    ensures { (result ≡ word_at file.now at) × (result < 4294967296) }
{
    half(file, at) * 65536 + half(file, at + 2)
}

pub(crate) fn width(file: &[u8]) -> usize
    requires { 2206 ≤ length file.now }
    ensures { result ≡ case_width file.now }
{
    half(file, 5)
}

pub(crate) fn height(file: &[u8]) -> usize
    requires { 2206 ≤ length file.now }
    ensures { result ≡ case_height file.now }
{
    half(file, 7)
}

fn count(file: &[u8]) -> usize
    requires { 2206 ≤ length file.now }
    ensures { (result ≡ case_count file.now) × (result < 256) }
{
    byte(file, 9)
}

// Two bytes as a signed number.
fn signed(n: usize) -> i32
    requires { n ≤ 65535 }
    ensures { result ≡ case_signed n }
{
    let v = n as i32;
    if n < 32768 {
        return v;
    }
    v - 65536
}

pub(crate) fn header(file: &[u8]) -> [i32; 1096]
    requires { 2206 ≤ length file.now }
    ensures { result ≡ case_header file.now }
{
    let mut h = [0; 1096];
    for i in 0..1096 {
        h[i] = signed(half(file, 10 + 2 * i));
    }
    h
}

// The length of partition i: 0 is the first, then the token partitions.
fn length_at(file: &[u8], i: usize) -> usize
    requires { 2206 + 4 * i ≤ length file.now }
    ensures { (result ≡ length_at file.now i) × (result < 4294967296) }
{
    word(file, 2202 + 4 * i)
}

// Where partition i starts: behind the lengths and the partitions before it.
fn start_at(file: &[u8], i: usize) -> usize
    requires { (2206 + 4 * case_count file.now ≤ length file.now) × (i ≤ case_count file.now + 1) }
    ensures { result ≡ start_at file.now i }
{
    let mut at = 2206 + 4 * count(file);
    for j in 0..i {
        at += length_at(file, j);
    }
    at
}

// Whether the partitions end where the file ends.
fn whole(file: &[u8]) -> bool
    requires { 2206 ≤ length file.now }
    ensures { result ≡ case_whole file.now }
{
    let n = count(file);
    if file.len() < 2206 + 4 * n {
        return false;
    }
    start_at(file, n + 1) == file.len()
}

// Whether the file is as its lengths say, at most 64 KiB, and no side is over 64.
pub(crate) fn well_formed(file: &[u8]) -> bool
    ensures { result ≡ well_formed_of file.now }
{
    let n = file.len();
    if n < 2206 {
        return false;
    }
    let version = byte(file, 0);
    let rest = word(file, 1);
    let w = width(file);
    let h = height(file);
    (n <= 65536) & (version == 1) & (rest + 5 == n) & (w <= 64) & (h <= 64) & whole(file)
}

// Partition i as a span of the file.
fn span_at(file: &[u8], i: usize) -> Span
    requires { (2206 + 4 * case_count file.now ≤ length file.now) × (i ≤ case_count file.now) }
    ensures { result ≡ partition_at file.now i }
{
    Span {
        start: start_at(file, i),
        len: length_at(file, i),
    }
}

// Token partition i of the n; past them, the empty span.
fn slot(file: &[u8], n: usize, i: usize) -> Span
    requires { (2206 + 4 * case_count file.now ≤ length file.now) × (n ≡ case_count file.now) × (i < 8) }
    ensures { result ≡ slot_of file.now i }
{
    if n <= i {
        return Span { start: 0, len: 0 };
    }
    span_at(file, i + 1)
}

fn spans(file: &[u8]) -> [Span; 8]
    requires { 2206 + 4 * case_count file.now ≤ length file.now }
    ensures { result ≡ case_spans file.now }
{
    let mut all = [Span { start: 0, len: 0 }; 8];
    let n = count(file);
    for i in 0..8 {
        all[i] = slot(file, n, i);
    }
    all
}

// The tile, with the first partition opened afresh.
pub(crate) fn tile_of(file: &[u8]) -> Tile
    requires { 2206 + 4 * case_count file.now ≤ length file.now }
    ensures { result ≡ case_tile file.now }
{
    let first = span_at(file, 0);
    Tile {
        first,
        tokens: spans(file),
        reader: open(part(file, first)),
        count: count(file),
        width: width(file),
        height: height(file),
    }
}
