// The partition count written as 0, and the coded header behind it read and written again (RFC 6386, section 19.2): quantizers, token
// probabilities, the skip flag.
ghost use Rattle.std.specs.Prelude.{[], ◌∷◌};
ghost use Rattle.reader.specs.Reading.{symbol};
ghost use Rattle.frame.specs.Header.{literal, quantizers, probs};
ghost use Rattle.recode_frame.specs.RecodeFrame.{after_count, no_count};
ghost use Rattle.recode_frame.specs.HeaderCopies.{Copied, Swapped, no_bit};

use crate::bits::{copy_bits, copy_byte, copy_signed};
use frame::tables::updates;
use recode::pipe::{Pipe, ask};

// A bit read, and a 0 written in its place.
fn clear(s: &[u8], p: Pipe, out: &mut [u8]) -> Pipe
    ensures { Swapped (symbol 128) (no_bit ∷ []) s.now p out.old result out.new }
{
    let r = p.reader;
    let w = p.writer;
    let full = r.fill(s);
    let b = full.bit(128);
    let next = b.next;
    let written = w.write(out, 128, false);
    Pipe {
        reader: next,
        writer: written,
    }
}

// log2_nbr_of_dct_partitions, two bits: 0 is one partition.
pub(crate) fn clear_count(s: &[u8], p: Pipe, out: &mut [u8]) -> Pipe
    ensures { Swapped (literal 2) no_count s.now p out.old result out.new }
{
    let high = clear(s, p, out);
    clear(s, high, out)
}

// quant_indices()
fn copy_quantizers(s: &[u8], p: Pipe, out: &mut [u8]) -> Pipe
    ensures { Copied quantizers s.now p out.old result out.new }
{
    let base = copy_bits(s, p, out, 7);
    let ydc = copy_signed(s, base, out, 4);
    let y2dc = copy_signed(s, ydc, out, 4);
    let y2ac = copy_signed(s, y2dc, out, 4);
    let uvdc = copy_signed(s, y2ac, out, 4);
    copy_signed(s, uvdc, out, 4)
}

// token_prob_update()
fn copy_probs(s: &[u8], p: Pipe, out: &mut [u8]) -> Pipe
    ensures { Copied probs s.now p out.old result out.new }
{
    let chances = updates();
    let mut next = p;
    for chance in &chances {
        next = copy_byte(s, next, out, *chance);
    }
    next
}

pub(crate) fn copy_after(s: &[u8], p: Pipe, out: &mut [u8]) -> Pipe
    ensures { Copied after_count s.now p out.old result out.new }
{
    let quantizers = copy_quantizers(s, p, out);
    let refresh = copy_bits(s, quantizers, out, 1);
    let probs = copy_probs(s, refresh, out);
    let skip = ask(s, probs, out, 128);
    let x = skip.next;
    if !skip.bit {
        return x;
    }
    copy_bits(s, x, out, 8)
}
