// The coded header before the partition count, read and written again (RFC 6386, section 19.2): colour space, clamping, segments, filter.
ghost use Rattle.numbers.specs.Flags.{bit_of};
ghost use Rattle.frame.specs.Header.{when, no_features_of, features, no_probs_of, map_probs_of, segments, no_deltas_of, deltas_update_of, filter};
ghost use Rattle.recode_frame.specs.RecodeFrame.{before_count};
ghost use Rattle.recode_frame.specs.HeaderCopies.{Copied};

use crate::bits::{copy_bits, copy_byte, copy_four};
use recode::pipe::{Pipe, ask};

// The segments' quantizers and levels, where they are announced.
fn copy_features(s: &[u8], p: Pipe, out: &mut [u8], on: bool) -> Pipe
    ensures { Copied (when (bit_of on) no_features_of features) s.now p out.old result out.new }
{
    if !on {
        return p;
    }
    let absolute = copy_bits(s, p, out, 1);
    let quantizers = copy_four(s, absolute, out, 7);
    copy_four(s, quantizers, out, 6)
}

// The three probabilities of the map's tree, where there is a map.
fn copy_map(s: &[u8], p: Pipe, out: &mut [u8], on: bool) -> Pipe
    ensures { Copied (when (bit_of on) no_probs_of map_probs_of) s.now p out.old result out.new }
{
    if !on {
        return p;
    }
    let a = copy_byte(s, p, out, 128);
    let b = copy_byte(s, a, out, 128);
    copy_byte(s, b, out, 128)
}

// update_segmentation()
fn copy_segments(s: &[u8], p: Pipe, out: &mut [u8]) -> Pipe
    ensures { Copied segments s.now p out.old result out.new }
{
    let on = ask(s, p, out, 128);
    let x = on.next;
    if !on.bit {
        return x;
    }
    let map = ask(s, x, out, 128);
    let changes = ask(s, map.next, out, 128);
    let features = copy_features(s, changes.next, out, changes.bit);
    copy_map(s, features, out, map.bit)
}

// mb_lf_adjustments(), behind its first flag
fn copy_deltas(s: &[u8], p: Pipe, out: &mut [u8], on: bool) -> Pipe
    ensures { Copied (when (bit_of on) no_deltas_of deltas_update_of) s.now p out.old result out.new }
{
    if !on {
        return p;
    }
    let update = ask(s, p, out, 128);
    let x = update.next;
    if !update.bit {
        return x;
    }
    let frames = copy_four(s, x, out, 6);
    copy_four(s, frames, out, 6)
}

// filter_type, loop_filter_level, sharpness_level, mb_lf_adjustments()
fn copy_filter(s: &[u8], p: Pipe, out: &mut [u8]) -> Pipe
    ensures { Copied filter s.now p out.old result out.new }
{
    let kind = copy_bits(s, p, out, 1);
    let level = copy_bits(s, kind, out, 6);
    let sharpness = copy_bits(s, level, out, 3);
    let on = ask(s, sharpness, out, 128);
    copy_deltas(s, on.next, out, on.bit)
}

pub(crate) fn copy_before(s: &[u8], p: Pipe, out: &mut [u8]) -> Pipe
    ensures { Copied before_count s.now p out.old result out.new }
{
    let colour = copy_bits(s, p, out, 1);
    let clamping = copy_bits(s, colour, out, 1);
    let segments = copy_segments(s, clamping, out);
    copy_filter(s, segments, out)
}
