// From a key frame's bytes to the picture on the screen (RFC 6386): its header is taken (sections 9 and 19.2), its macroblocks are decoded
// (sections 11 to 14), and the loop filter runs over them (section 15).
#![tactic(auto)]

ghost use Rattle.std.specs.Prelude.{◌≡◌};
ghost use Rattle.lent.specs.Memory.{memory_of};
ghost use Rattle.macroblock.specs.Macroblock.{planes_of};
ghost use Rattle.key_frame.specs.KeyFrame.{frame_planes, refused_shown, framed, frame_shown, key_framed, key_frame_of};

use choices::answer::{finished, number};
use choices::checks::refusal;
use deblock::deblock;
use frame::take::{Answer, refused};
use header::entries;
use header::entries::present_at;
use lent::sizes::Sizes;
use macroblock::arguments::SymbolCounts;
use picture::decode;
use take::{store, take};

// 0, 6 or 7 with the macroblocks finished, the symbols read and what was taken of the header; or the number of a refusal and zeros.
#[derive(Clone, Copy)]
pub struct Shown {
    pub number: u32,
    pub finished: usize,
    pub reads: SymbolCounts,
    pub taken: Answer,
}

fn nothing(number: u32) -> Shown
    ensures { result ≡ refused_shown number }
{
    Shown {
        number,
        finished: 0,
        reads: SymbolCounts {
            first: 0,
            tokens: 0,
        },
        taken: refused(number),
    }
}

// A frame whose level is 0 is not filtered, whatever its segments and deltas say.
fn filter(y: &mut [u8], u: &mut [u8], v: &mut [u8], strengths: &[u8], header: &[i32], taken: Answer)
    ensures { planes_of y.new u.new v.new
        ≡ frame_planes header.now taken strengths.now
        (planes_of y.old u.old v.old) }
{
    if present_at(header, entries::FRAME_LEVEL) {
        let tile = taken.tile;
        // A frame that was decoded is not refused.
        let _ = deblock(y, u, v, strengths, tile.width, tile.height, taken.simple);
    }
}

// A frame that is taken, into memory of the lengths that its size asks.
fn show(
    bytes: &[u8],
    taken: Answer,
    header: &[i32],
    y: &mut [u8],
    u: &mut [u8],
    v: &mut [u8],
    columns: &mut [u8],
    modes: &mut [u8],
    strengths: &mut [u8],
) -> Shown
    ensures { framed result
        (memory_of y.new u.new v.new columns.new modes.new strengths.new)
        ≡ frame_shown bytes.now taken header.now
        (memory_of y.old u.old v.old
        columns.old modes.old strengths.old) }
{
    let tile = taken.tile;
    let d = decode(
        bytes,
        tile,
        header,
        &mut y[..],
        &mut u[..],
        &mut v[..],
        &mut columns[..],
        &mut modes[..],
        &mut strengths[..],
    );
    filter(&mut y[..], &mut u[..], &mut v[..], strengths, header, taken);
    let answer = d.answer;
    let reads = d.reads;
    Shown {
        number: number(answer),
        finished: finished(answer),
        reads,
        taken,
    }
}

// THE call. 9 where there are not 1096 entries; 12 to 14 as the header is refused; 4 where a lent length is not what the frame's size asks.
pub fn key_frame(
    bytes: &[u8],
    header: &mut [i32],
    y: &mut [u8],
    u: &mut [u8],
    v: &mut [u8],
    columns: &mut [u8],
    modes: &mut [u8],
    strengths: &mut [u8],
) -> Shown
    ensures { key_framed result header.new
        (memory_of y.new u.new v.new columns.new modes.new strengths.new)
        ≡ key_frame_of bytes.now header.old
        (memory_of y.old u.old v.old
        columns.old modes.old strengths.old) }
{
    if header.len() != entries::ENTRY_COUNT {
        return nothing(9);
    }
    let sizes = Sizes {
        y: y.len(),
        u: u.len(),
        v: v.len(),
        columns: columns.len(),
        modes: modes.len(),
        strengths: strengths.len(),
    };
    let t = take(bytes);
    let taken = t.answer;
    let tile = taken.tile;
    let entries = t.header;
    if taken.number != 0 {
        return nothing(taken.number);
    }
    if let Err(bad) = refusal(bytes, tile, &entries, sizes) {
        return nothing(bad.number());
    }
    store(&mut header[..], &entries);
    show(bytes, taken, &entries, y, u, v, columns, modes, strengths)
}
