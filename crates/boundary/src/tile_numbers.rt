// A tile as the 28 numbers of `struct hookbarley_tile`, and back.
ghost use Rattle.std.specs.Prelude.{◌≡◌, ◌<◌, get_or};
ghost use Rattle.numbers.specs.Lists.{listed};
ghost use Rattle.boundary.specs.TileNumbers.{field_of, token_span_of, reader_of_numbers, tile_of_numbers, numbers_of_tile, put_of};

use frame::take::ShownSize;
use reader::boolean::Reader;
use tile::{Span, Tile};

pub const TILE_NUMBERS: usize = 28;

// A number too large for its field becomes the field's largest, which no reader in range has.
#[tactic(auto, unfolding(crate::specs::TileNumbers::field_of))]
fn field(n: usize) -> u32
    ensures { result ≡ field_of n }
{
    u32::try_from(n).unwrap_or(u32::MAX)
}

// Number i, 0 past the end.
fn number(n: &[usize], i: usize) -> usize
    ensures { result ≡ get_or n.now i 0 }
{
    n.get(i).copied().unwrap_or(0)
}

fn token_span(n: &[usize], i: usize) -> Span
    requires { i < 8 }
    ensures { result ≡ token_span_of n.now i }
{
    Span {
        start: number(n, 8 + i),
        len: number(n, 16 + i),
    }
}

fn eight_spans(n: &[usize]) -> [Span; 8]
    ensures { result ≡ listed 8 (token_span_of n.now) }
{
    [
        token_span(n, 0),
        token_span(n, 1),
        token_span(n, 2),
        token_span(n, 3),
        token_span(n, 4),
        token_span(n, 5),
        token_span(n, 6),
        token_span(n, 7),
    ]
}

fn reader_of(n: &[usize]) -> Reader
    ensures { result ≡ reader_of_numbers n.now }
{
    Reader {
        at: number(n, 24),
        range: field(number(n, 25)),
        shifts: field(number(n, 26)),
        window: field(number(n, 27)),
    }
}

// The tile of 28 numbers.
pub fn tile_of(n: &[usize]) -> Tile
    ensures { result ≡ tile_of_numbers n.now }
{
    Tile {
        first: Span {
            start: number(n, 6),
            len: number(n, 7),
        },
        tokens: eight_spans(n),
        reader: reader_of(n),
        count: number(n, 5),
        width: number(n, 0),
        height: number(n, 1),
    }
}

// `shown` is the true size, `simple` 1 for the simple loop filter: what the numbers have beside the tile.
pub fn numbers(tile: Tile, shown: ShownSize, simple: usize) -> [usize; 28]
    ensures { result ≡ numbers_of_tile tile shown simple }
{
    let first = tile.first;
    let reader = tile.reader;
    let tokens = tile.tokens;
    [
        tile.width,
        tile.height,
        shown.width,
        shown.height,
        simple,
        tile.count,
        first.start,
        first.len,
        tokens[0].start,
        tokens[1].start,
        tokens[2].start,
        tokens[3].start,
        tokens[4].start,
        tokens[5].start,
        tokens[6].start,
        tokens[7].start,
        tokens[0].len,
        tokens[1].len,
        tokens[2].len,
        tokens[3].len,
        tokens[4].len,
        tokens[5].len,
        tokens[6].len,
        tokens[7].len,
        reader.at,
        reader.range as usize,
        reader.shifts as usize,
        reader.window as usize,
    ]
}

// Stores the 28 numbers where there is room for 28. A loop: the kit's copy_from_slice would have the archive ask for memmove.
pub fn put_numbers(tile: &mut [usize], n: [usize; 28])
    ensures { tile.new ≡ put_of tile.old n }
{
    if tile.len() != TILE_NUMBERS {
        return;
    }
    for i in 0..28 {
        tile[i] = n[i];
    }
}
