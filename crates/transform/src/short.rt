// The inverse DCT of RFC 6386, section 14.4, in sixteen bits, for coefficients that leave room for it (-2048..2047): the compiler can then
// take eight blocks at once, with one instruction for eight products.
ghost use Rattle.std.specs.Prelude.{◌≡◌, false, ◌<◌, pos, negsuc};
ghost use Rattle.numbers.specs.In.{In, Each, Each2};
ghost use Rattle.transform.specs.Transform.{scaled_of, line_of, grid_column, transpose_of, vertical_pass, horizontal_pass};

pub(crate) type Short = [[i16; 4]; 4];

// 35468 / 65536 of x, rounded down: 35468 is 65536 less 30068, which is a factor of sixteen bits.
fn sine_part(x: i16) -> i16
    requires { In (negsuc 7999) (pos 8000) x }
    ensures { result ≡ scaled_of (pos 35468) x }
{
    x + ((0 - 30068 * (x as i32)) >> 16) as i16
}

// 20091 / 65536 of x, rounded down.
fn cosine_part(x: i16) -> i16
    requires { In (negsuc 7999) (pos 8000) x }
    ensures { result ≡ scaled_of (pos 20091) x }
{
    ((20091 * (x as i32)) >> 16) as i16
}

// A line of four, with the RFC's names.
fn short_line(r: [i16; 4], bias: i16) -> [i16; 4]
    requires each { Each (negsuc 7999) (pos 8000) r }
    requires fact { In (pos 0) (pos 4) bias }
    ensures { result ≡ line_of false bias r }
{
    let a = r[0];
    let b = r[1];
    let c = r[2];
    let d = r[3];
    let a1 = a + c + bias;
    let b1 = a - c + bias;
    let c1 = sine_part(b) - cosine_part(d) - d;
    let d1 = cosine_part(b) + b + sine_part(d);
    [a1 + d1, b1 + c1, b1 - c1, a1 - d1]
}

// Number x of each row.
fn short_column(g: Short, x: usize) -> [i16; 4]
    requires { x < 4 }
    ensures { result ≡ grid_column g x }
{
    [g[0][x], g[1][x], g[2][x], g[3][x]]
}

// Columns for rows.
fn turned(g: Short) -> Short
    ensures { result ≡ transpose_of g }
{
    [
        short_column(g, 0),
        short_column(g, 1),
        short_column(g, 2),
        short_column(g, 3),
    ]
}

// The first pass, over the columns.
pub(crate) fn first_pass(g: Short) -> Short
    requires { Each2 (negsuc 2047) (pos 2047) g }
    ensures { result ≡ vertical_pass false g }
{
    let t = turned(g);
    turned([
        short_line(t[0], 0),
        short_line(t[1], 0),
        short_line(t[2], 0),
        short_line(t[3], 0),
    ])
}

// The second pass, over the rows.
pub(crate) fn second_pass(g: Short) -> Short
    requires { Each2 (negsuc 7999) (pos 8000) g }
    ensures { result ≡ horizontal_pass false g }
{
    [
        short_line(g[0], 4),
        short_line(g[1], 4),
        short_line(g[2], 4),
        short_line(g[3], 4),
    ]
}
