// A tile's tokens in one partition: the picture call, then every token read and written again, counted before one is written unless the room is
// ample.
ghost use Rattle.std.specs.Prelude.{◌≡◌, true, ◌+◌, ◌≤◌};
ghost use Rattle.lent.specs.Memory.{memory_of};
ghost use Rattle.choices.specs.Choices.{call_of};
ghost use Rattle.recode.specs.Recode.{tokens_of, tokens_ended};
ghost use Rattle.recode.specs.Pass.{Small, Passes, Measures, Writes};

use crate::walk::walk;
use blank::fill;
use choices::answer::number;
use coefficients::block::probabilities;
use header::frame::take;
use picture::decode;
use tile::Tile;

// 0 and how many bytes were written; or the number of a refusal, that of the picture call or 16 where the room is too small, and 0.
#[derive(Clone, Copy)]
pub struct TokensRecoded {
    pub number: u32,
    pub len: usize,
}

// Every token once more, from the first macroblock on, written to the room; what lies past its end only counts. How many bytes there are.
fn pass(bytes: &[u8], tile: Tile, header: &[i32], columns: &mut [u8], out: &mut [u8]) -> usize
    requires { Small tile }
    ensures { Passes bytes.now tile header.now columns.old out.old
        result columns.new out.new }
{
    fill(&mut columns[..], 0);
    let Some(numbers) = probabilities(header) else {
        return 0;
    };
    let Some(frame) = take(header) else {
        return 0;
    };
    let w = walk(bytes, tile, frame, &numbers, &mut columns[..], &mut out[..]);
    w.flush(&mut out[..])
}

// How many bytes there will be.
fn measure(bytes: &[u8], tile: Tile, header: &[i32], columns: &mut [u8]) -> usize
    requires { Small tile }
    ensures { Measures bytes.now tile header.now columns.old result columns.new }
{
    let mut none = [0u8; 1];
    pass(bytes, tile, header, columns, &mut none[..])
}

// Whether a room is sure to hold what `most` symbols make: at most a byte each, and four at the end.
fn ample(room: usize, most: u64) -> bool
    ensures { result ≡ true → most + 4 ≤ room }
{
    if room < 4 {
        return false;
    }
    most <= (room - 4) as u64
}

// Of a tile that was decoded whole, of at most so many token symbols.
fn rewrite(
    bytes: &[u8],
    tile: Tile,
    header: &[i32],
    most: u64,
    columns: &mut [u8],
    out: &mut [u8],
) -> TokensRecoded
    requires { Small tile }
    ensures { Writes bytes.now tile header.now most columns.old out.old
        result columns.new out.new }
{
    if ample(out.len(), most) {
        let n = pass(bytes, tile, header, &mut columns[..], &mut out[..]);
        return TokensRecoded { number: 0, len: n };
    }
    let k = measure(bytes, tile, header, &mut columns[..]);
    if out.len() < k {
        return TokensRecoded { number: 16, len: 0 };
    }
    let n = pass(bytes, tile, header, &mut columns[..], &mut out[..]);
    TokensRecoded { number: 0, len: n }
}

// The picture call, then its tokens in one partition at the start of `out`; what lies behind it in `out` is left alone.
pub fn recode_tokens(
    bytes: &[u8],
    tile: Tile,
    header: &[i32],
    y: &mut [u8],
    u: &mut [u8],
    v: &mut [u8],
    columns: &mut [u8],
    modes: &mut [u8],
    strengths: &mut [u8],
    out: &mut [u8],
) -> TokensRecoded
    ensures { tokens_ended result
        (memory_of y.new u.new v.new columns.new modes.new strengths.new)
        out.new
        ≡ tokens_of (call_of bytes.now tile header.now)
        (memory_of y.old u.old v.old
        columns.old modes.old strengths.old) out.old }
{
    let read = decode(
        bytes,
        tile,
        header,
        y,
        u,
        v,
        &mut columns[..],
        modes,
        strengths,
    );
    let answer = read.answer;
    let reads = read.reads;
    let number = number(answer);
    if number != 0 {
        return TokensRecoded { number, len: 0 };
    }
    rewrite(bytes, tile, header, reads.tokens, columns, out)
}
