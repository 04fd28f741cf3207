// The two inverse transforms of a block of 4 by 4 coefficients: RFC 6386 section 14.3 (Walsh-Hadamard) and section 14.4 (DCT).
// A block is handed from pass to pass as four rows of four numbers.
#![tactic(auto)]

pub mod lanes;
mod short;

ghost use Rattle.std.specs.Prelude.{◌≡◌, true, false, ◌≤◌, ◌<◌, ◌+◌, pos, negsuc, ◌+ℤ◌, replicate};
ghost use Rattle.numbers.specs.In.{In, Each, Each2};
ghost use Rattle.numbers.specs.Wrap.{wrap_z};
ghost use Rattle.transform.specs.Transform.{scaled_of, line_of, transpose_of, grid_of, grid_column, grid_row, vertical_pass, bias_of, horizontal_pass, result_of, results_of, samples_of, block_fits, transform_of};
ghost use Rattle.transform.specs.Pieces.{CoefficientsIn, PlainTo};

type Grid = [[i32; 4]; 4];

// 0 and the sixteen results, row by row; or 8 and sixteen zeros, where a coefficient does not fit 16 bits.
#[derive(Clone, Copy)]
pub struct Transformed {
    pub number: u32,
    pub samples: [i32; 16],
}

// What one look at the coefficients tells: whether each fits 16 bits, and whether each but the first is 0.
#[derive(Clone, Copy)]
struct Seen {
    fits: bool,
    plain: bool,
}

// 35468 / 65536 and 20091 / 65536 of x, rounded down: sinpi8sqrt2 and cospi8sqrt2minus1 of the RFC. No product leaves 32 bits. 35468 is 4
// times 8867; 20091 is twice 10045 and 1, and of that 1 the product is x itself, whose half, rounded down, goes to the other.
fn by_sine(x: i32) -> i32
    requires { In (negsuc 199999) (pos 200000) x }
    ensures { result ≡ scaled_of (pos 35468) x }
{
    (8867 * x) >> 14
}

fn by_cosine(x: i32) -> i32
    requires { In (negsuc 199999) (pos 200000) x }
    ensures { result ≡ scaled_of (pos 20091) x }
{
    (10045 * x + (x >> 1)) >> 15
}

// A line of four through the inverse DCT, with the RFC's names.
fn dct_line(r: [i32; 4], bias: i32) -> [i32; 4]
    requires each { Each (negsuc 199999) (pos 200000) r }
    requires fact { In (pos 0) (pos 4) bias }
    ensures { result ≡ line_of false bias r }
{
    let a = r[0];
    let b = r[1];
    let c = r[2];
    let d = r[3];
    let a1 = a + c + bias;
    let b1 = a - c + bias;
    let c1 = by_sine(b) - by_cosine(d) - d;
    let d1 = by_cosine(b) + b + by_sine(d);
    [a1 + d1, b1 + c1, b1 - c1, a1 - d1]
}

// A line of four through the inverse Walsh-Hadamard transform.
fn walsh_line(r: [i32; 4], bias: i32) -> [i32; 4]
    requires each { Each (negsuc 199999) (pos 200000) r }
    requires fact { In (pos 0) (pos 4) bias }
    ensures { result ≡ line_of true bias r }
{
    let a = r[0];
    let b = r[1];
    let c = r[2];
    let d = r[3];
    let a1 = a + d + bias;
    let b1 = b + c;
    let c1 = b - c;
    let d1 = a - d + bias;
    [a1 + b1, d1 + c1, a1 - b1, d1 - c1]
}

// A line of four through the transform that the flag names.
fn line(r: [i32; 4], bias: i32, walsh: bool) -> [i32; 4]
    requires each { Each (negsuc 199999) (pos 200000) r }
    requires fact { In (pos 0) (pos 4) bias }
    ensures { result ≡ line_of walsh bias r }
{
    if walsh {
        walsh_line(r, bias)
    } else {
        dct_line(r, bias)
    }
}

// Number x of each row.
fn column(g: Grid, x: usize) -> [i32; 4]
    requires { x < 4 }
    ensures { result ≡ grid_column g x }
{
    [g[0][x], g[1][x], g[2][x], g[3][x]]
}

// Columns for rows.
fn transpose(g: Grid) -> Grid
    ensures { result ≡ transpose_of g }
{
    [column(g, 0), column(g, 1), column(g, 2), column(g, 3)]
}

// Four coefficients in order.
fn row(c: &[i32; 16], at: usize) -> [i32; 4]
    requires { at ≤ 12 }
    ensures { result ≡ grid_row c.now at }
{
    [c[at], c[at + 1], c[at + 2], c[at + 3]]
}

// The coefficients, row by row.
fn grid(c: &[i32; 16]) -> Grid
    ensures { result ≡ grid_of c.now }
{
    [row(c, 0), row(c, 4), row(c, 8), row(c, 12)]
}

// v in 16 bits, as `wrap16` does it, in 32 bits throughout.
fn wrapped(v: i32) -> i32
    requires { In (negsuc 999999) (pos 1000000) v }
    ensures { result ≡ wrap_z v }
{
    v - 65536 * ((v + 32768) >> 16)
}

// A result: an eighth of what the passes leave, rounded down; a Walsh result in 16 bits.
fn result(v: i32, walsh: bool) -> i32
    requires { In (negsuc 1200007) (pos 1200008) v }
    ensures { result ≡ result_of walsh v }
{
    if walsh { wrapped(v >> 3) } else { v >> 3 }
}

// The results, row by row.
fn results(g: Grid, walsh: bool) -> [i32; 16]
    requires { Each2 (negsuc 1200007) (pos 1200008) g }
    ensures { result ≡ results_of walsh g }
{
    let mut out = [0; 16];
    for k in 0..16usize {
        out[k] = result(g[k / 4][k % 4], walsh);
    }
    out
}

// What is added before the division by 8.
fn bias(walsh: bool) -> i32
    ensures { result ≡ bias_of walsh }
{
    if walsh { 3 } else { 4 }
}

// The first pass, over the columns. The four lines stand here and in `horizontal` once more: a function for them, called twice, would be
// more than the compiler draws into the transform.
fn vertical(g: Grid, walsh: bool) -> Grid
    requires { Each2 (negsuc 32767) (pos 32767) g }
    ensures { result ≡ vertical_pass walsh g }
{
    let t = transpose(g);
    transpose([
        line(t[0], 0, walsh),
        line(t[1], 0, walsh),
        line(t[2], 0, walsh),
        line(t[3], 0, walsh),
    ])
}

// The second pass, over the rows.
fn horizontal(g: Grid, walsh: bool) -> Grid
    requires { Each2 (negsuc 199999) (pos 200000) g }
    ensures { result ≡ horizontal_pass walsh g }
{
    let b = bias(walsh);
    [
        line(g[0], b, walsh),
        line(g[1], b, walsh),
        line(g[2], b, walsh),
        line(g[3], b, walsh),
    ]
}

// The results where every coefficient but the first is 0: one number in all sixteen places.
fn shortcut(dc: i32, walsh: bool) -> [i32; 16]
    requires { In (negsuc 32767) (pos 32767) dc }
    ensures { result ≡ replicate 16 (result_of walsh (dc +ℤ bias_of walsh)) }
{
    [result(dc + bias(walsh), walsh); 16]
}

// One look at the coefficients. It goes on after one that does not fit or is not 0, so that the compiler can take several at once.
fn look(c: &[i32; 16]) -> Seen
    ensures fits_value { result.fits ≡ block_fits c.now }
    ensures plain_to { result.plain ≡ true → PlainTo 16 c.now }
{
    let mut fits = true;
    let mut plain = true;
    for k in 0..16usize {
        let x = c[k];
        fits = (-32768 <= x) & (x <= 32767) & fits;
        plain = ((k == 0) | (x == 0)) & plain;
    }
    Seen { fits, plain }
}

// The results of coefficients that fit. Each way names its transform by a constant, so that the compiler can join the passes.
pub(crate) fn samples(c: &[i32; 16], walsh: bool, plain: bool) -> [i32; 16]
    requires coefficients_in { CoefficientsIn c.now }
    requires plain_to { plain ≡ true → PlainTo 16 c.now }
    ensures { result ≡ samples_of walsh c.now }
{
    if plain {
        shortcut(c[0], walsh)
    } else if walsh {
        results(horizontal(vertical(grid(c), true), true), true)
    } else {
        results(horizontal(vertical(grid(c), false), false), false)
    }
}

// The inverse transform of sixteen coefficients, Walsh-Hadamard or DCT.
pub fn transform(c: &[i32; 16], walsh: bool) -> Transformed
    ensures { result ≡ transform_of c.now walsh }
{
    let seen = look(c);
    if seen.fits {
        let s = samples(c, walsh, seen.plain);
        Transformed {
            number: 0,
            samples: s,
        }
    } else {
        Transformed {
            number: 8,
            samples: [0; 16],
        }
    }
}
