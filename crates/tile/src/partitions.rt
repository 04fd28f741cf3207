// Partitions: spans of the bytes, which may overlap. Once one is cut out, only its contents are spoken of.
ghost use Rattle.std.specs.Prelude.{◌≡◌};
ghost use Rattle.reader.specs.Reading.{no_reader_of};
ghost use Rattle.tile.specs.Tile.{pick_of, contents_of, span_at_of, token_contents, reader_of_of, readers_of};

use crate::{Span, Tile};
use reader::boolean::{Reader, open};

// The token partition of a row; 0 where there is none.
pub fn pick(row: usize, count: usize) -> usize
    ensures { result ≡ pick_of row count }
{
    if count == 0 {
        return 0;
    }
    row % count
}

// The contents of a span: what lies past the end of the bytes is cut off.
pub fn part(bytes: &[u8], span: Span) -> &[u8]
    ensures { result.now ≡ contents_of bytes.now span }
{
    let n = bytes.len();
    let start = span.start.min(n);
    let end = start + span.len.min(n - start);
    &bytes[start..end]
}

// The span of token partition i; past the eighth it is empty.
fn span(tile: Tile, i: usize) -> Span
    ensures { result ≡ span_at_of tile i }
{
    let tokens = tile.tokens;
    tokens.get(i).copied().unwrap_or(Span { start: 0, len: 0 })
}

// The contents of token partition i.
pub fn token(bytes: &[u8], tile: Tile, i: usize) -> &[u8]
    ensures { result.now ≡ token_contents bytes.now tile i }
{
    part(bytes, span(tile, i))
}

fn no_reader() -> Reader
    ensures { result ≡ no_reader_of }
{
    Reader {
        at: 0,
        range: 0,
        shifts: 0,
        window: 0,
    }
}

// The reader that token partition i starts with. Past the count nothing is opened.
fn opener(bytes: &[u8], tile: Tile, i: usize) -> Reader
    ensures { result ≡ reader_of_of bytes.now tile i }
{
    if tile.count <= i {
        return no_reader();
    }
    open(token(bytes, tile, i))
}

// The eight starting readers of the token partitions.
pub fn openers(bytes: &[u8], tile: Tile) -> [Reader; 8]
    ensures { result ≡ readers_of bytes.now tile }
{
    let mut readers = [no_reader(); 8];
    for i in 0..8 {
        readers[i] = opener(bytes, tile, i);
    }
    readers
}
