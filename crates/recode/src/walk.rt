// The macroblocks of a tile in raster order, their tokens read and written again: row y reads token partition y mod count, and all are
// written to one.
ghost use Rattle.std.specs.Prelude.{◌≡◌, ◌≤◌, length};
ghost use Rattle.header.specs.Header.{probability_count};
ghost use Rattle.recode.specs.WalkCopies.{WalkCopies};

use crate::turn::{Task, turn};
use header::frame::Frame;
use modes::contexts::Context;
use tile::Tile;
use tile::partitions::{openers, part, pick, token};
use writer::Writer;

pub(crate) fn walk(
    bytes: &[u8],
    tile: Tile,
    frame: Frame,
    table: &[u8],
    columns: &mut [u8],
    out: &mut [u8],
) -> Writer
    requires table_len { length table.now ≡ probability_count }
    requires width_bound { (tile.width ≤ 16384) × (tile.height ≤ 16384) × (tile.count ≤ 8) }
    ensures { WalkCopies bytes.now tile frame table.now columns.old out.old
        result columns.new out.new }
{
    let wide = tile.width / 16;
    let blocks = wide * (tile.height / 16);
    let first = part(bytes, tile.first);
    let mut readers = openers(bytes, tile);
    let mut r = tile.reader;
    let mut left = Context::empty();
    let mut w = Writer::fresh();
    for k in 0..blocks {
        let p = pick(k / wide, tile.count);
        let t = readers[p];
        let m = turn(
            first,
            token(bytes, tile, p),
            table,
            Task {
                first: r,
                token: t,
                writer: w,
                frame,
                left,
                column: k % wide,
            },
            &mut columns[..],
            &mut out[..],
        );
        let after = m.token;
        r = m.first;
        readers[p] = after;
        w = m.writer;
        left = m.left;
    }
    w
}
