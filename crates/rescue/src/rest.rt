// The macroblocks after the stop, in raster order, each rebuilt from its modes, until these run out. Token partitions are no longer read.
ghost use Rattle.std.specs.Prelude.{◌≡◌, true, ◌≤◌};
ghost use Rattle.header.specs.Header.{header_of};
ghost use Rattle.tile.specs.Tile.{blocks_of};
ghost use Rattle.lent.specs.Memory.{memory_of};
ghost use Rattle.choices.specs.Choices.{call_of, values_of};
ghost use Rattle.picture.specs.Picture.{pictured_of, Shared, Live};
ghost use Rattle.picture.specs.Halt.{state_of};
ghost use Rattle.rescue.specs.Rescue.{saved_at, gone_on};

use crate::turn::{task_of, turn};
use choices::answer::{Stop, finished};
use header::frame::take;
use macroblock::arguments::Readers;
use picture::rows::PictureStop;
use tile::Tile;
use tile::partitions::{part, pick};

// How many macroblocks are not grey.
pub(crate) fn rest(
    bytes: &[u8],
    tile: Tile,
    header: &[i32],
    stop: PictureStop,
    y: &mut [u8],
    u: &mut [u8],
    v: &mut [u8],
    columns: &mut [u8],
    modes: &mut [u8],
    strengths: &mut [u8],
) -> usize
    requires header_value { header_of header.now ≡ true }
    requires shared { Shared (pictured_of (call_of bytes.now tile header.now)) }
    requires live { Live (pictured_of (call_of bytes.now tile header.now)) (state_of stop.reader stop.readers stop.left
        (memory_of y.old u.old v.old columns.old modes.old strengths.old)) }
    requires answer_bound { values_of stop.answer ≤ blocks_of tile.width tile.height }
    ensures { saved_at result
        (memory_of y.new u.new v.new columns.new modes.new strengths.new)
        ≡ gone_on (blocks_of tile.width tile.height) (pictured_of (call_of bytes.now tile header.now)) stop.answer
        (state_of stop.reader stop.readers stop.left
        (memory_of y.old u.old v.old
        columns.old modes.old strengths.old)) }
{
    let answer = stop.answer;
    let Err(end) = answer else {
        return finished(answer);
    };
    let Stop::NoTokens(from) = end else {
        return finished(answer);
    };
    let wide = tile.width / 16;
    let blocks = wide * (tile.height / 16);
    let first = part(bytes, tile.first);
    let frame = take(header).unwrap();
    let mut r = stop.reader;
    let mut readers = stop.readers;
    let mut left = stop.left;
    for k in from..blocks {
        let p = pick(k / wide, tile.count);
        let t = readers[p];
        let m = turn(
            first,
            task_of(Readers { first: r, token: t }, frame, left, wide, k),
            &mut y[..],
            &mut u[..],
            &mut v[..],
            &mut columns[..],
            &mut modes[..],
            &mut strengths[..],
        );
        let finish = m.answer;
        let Ok(after) = finish else {
            return k;
        };
        let token = after.token;
        r = after.first;
        readers[p] = token;
        left = m.left;
    }
    blocks
}
