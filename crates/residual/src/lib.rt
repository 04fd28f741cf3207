// The residual of a macroblock: the coefficients of its blocks and what they leave behind for its neighbours (RFC 6386, section 13).
#![tactic(auto)]

ghost use Rattle.std.specs.Prelude.{◌≡◌, length};
ghost use Rattle.header.specs.Header.{probability_count};
ghost use Rattle.reader.specs.Reading.{Valid, count};
ghost use Rattle.residual.specs.Residual.{Flags, residual_arguments, residual_of, residual_answer, residual_call_of, residual_by_header_of, residual_reads, residual_by_header_reads};

use crate::answers::{Residual, ResidualRead, no_residual};
use crate::blocks::read;
use crate::contexts::flags_fine;
use crate::flat::squares;
use crate::quick::read_quick;
use coefficients::block::probabilities;
use header::entries::PROBABILITY_COUNT;
use header::quantizers::{Factors, for_segment};
use reader::boolean::{Reader, Unread, valid};

pub mod answers;
mod blocks;
pub mod contexts;
mod fast;
mod flat;
mod norms;
mod quick;
mod symbols;
mod walk;

// Arguments in range, one block after the other. The coefficients reach `out` only where all of them were read.
fn read_residual(
    s: &[u8],
    r: Reader,
    table: &[u8],
    f: Factors,
    small: bool,
    skip: bool,
    top: [u8; 9],
    left: [u8; 9],
    out: &mut [i16],
) -> ResidualRead
    requires valid { Valid s.now r × (length table.now ≡ probability_count) }
    requires flags { (Flags top × Flags left) × (length out.old ≡ 384) }
    ensures { (record { answer = result.residual; out = out.new }
        ≡ residual_answer s.now r table.now f small skip top left out.old)
        × (result.reads ≡ count (residual_of table.now f small skip top left) s.now r) }
{
    let mut flat = [0; 384];
    let t = read(s, r, table, f, small, skip, top, left, &mut flat[..]);
    let Some(m) = t.state else {
        return no_residual(Err(Unread::Missing), t.reads);
    };
    squares(out, &flat, skip);
    let top = m.top;
    let left = m.left;
    let residual = Residual {
        answer: Ok((m.empty, m.reader)),
        top,
        left,
    };
    ResidualRead {
        residual,
        reads: t.reads,
    }
}

// The same, all blocks at once where the partition has bytes enough, and else one after the other.
fn read_fast(
    s: &[u8],
    r: Reader,
    table: &[u8],
    f: Factors,
    small: bool,
    skip: bool,
    top: [u8; 9],
    left: [u8; 9],
    out: &mut [i16],
) -> ResidualRead
    requires valid { Valid s.now r × (length table.now ≡ probability_count) }
    requires flags { (Flags top × Flags left) × (length out.old ≡ 384) }
    ensures { (record { answer = result.residual; out = out.new }
        ≡ residual_answer s.now r table.now f small skip top left out.old)
        × (result.reads ≡ count (residual_of table.now f small skip top left) s.now r) }
{
    if skip {
        return read_residual(s, r, table, f, small, skip, top, left, out);
    }
    let q = read_quick(s, r, table, f, small, top, left, out);
    if q.fine {
        let read = q.read;
        return read;
    }
    read_residual(s, r, table, f, small, skip, top, left, out)
}

fn arguments(table: &[u8], top: [u8; 9], left: [u8; 9], size: usize) -> bool
    ensures { result ≡ residual_arguments table.now top left size }
{
    (table.len() == PROBABILITY_COUNT) & (flags_fine(top) & (flags_fine(left) & (size == 384)))
}

// The residual of a macroblock: the reader after it, its flags, its 384 coefficients by lanes in `out`, which every other
// answer leaves as it was.
pub fn decode(
    s: &[u8],
    r: Reader,
    table: &[u8],
    f: Factors,
    small: bool,
    skip: bool,
    top: [u8; 9],
    left: [u8; 9],
    out: &mut [i16],
) -> ResidualRead
    ensures { (record { answer = result.residual; out = out.new }
        ≡ residual_call_of s.now r table.now f small skip top left out.old)
        × (result.reads ≡ residual_reads s.now r table.now f small skip top left out.old) }
{
    if !(valid(s, r) & arguments(table, top, left, out.len())) {
        return no_residual(Err(Unread::Refused), 0);
    }
    read_fast(s, r, table, f, small, skip, top, left, out)
}

// `decode` with a header and a segment in place of the table and the factors.
pub fn decode_header(
    s: &[u8],
    h: &[i32],
    segment: usize,
    small: bool,
    skip: bool,
    r: Reader,
    top: [u8; 9],
    left: [u8; 9],
    out: &mut [i16],
) -> ResidualRead
    ensures { (record { answer = result.residual; out = out.new }
        ≡ residual_by_header_of s.now r h.now segment small skip top left out.old)
        × (result.reads ≡ residual_by_header_reads s.now r h.now segment small skip top left out.old) }
{
    let Some(f) = for_segment(h, segment) else {
        return no_residual(Err(Unread::Refused), 0);
    };
    let Some(bytes) = probabilities(h) else {
        return no_residual(Err(Unread::Refused), 0);
    };
    decode(s, r, &bytes, f, small, skip, top, left, out)
}
