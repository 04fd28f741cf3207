// Whether the arguments of the public call lie in their ranges. Nothing is multiplied before it is known to be small.
ghost use Rattle.std.specs.Prelude.{◌≡◌, ◌*◌, ◌≤◌};
ghost use Rattle.predict.specs.Predict.{Size};
ghost use Rattle.planes.specs.Paint.{modes_below, paint_modes_fine, side_fine_of, square_fine_of};
ghost use Rattle.planes.specs.Pieces.{blocks_fine_of};

fn each_below(modes: &[u8; 16], limit: u8) -> bool
    ensures { result ≡ modes_below limit modes.now }
{
    // All are looked at, and not until the first, so that the compiler takes them together.
    let mut fine = true;
    for k in 0..16usize {
        fine = (modes[k] < limit) & fine;
    }
    fine
}

// The size, and the modes that count.
pub(crate) fn modes_fine(size: usize, small: bool, mode: u8, modes: &[u8; 16]) -> bool
    ensures { result ≡ paint_modes_fine size small mode modes.now }
{
    if small {
        (size == 16) & each_below(modes, 10)
    } else {
        ((size == 8) | (size == 16)) & (mode < 4)
    }
}

// Whether a side has whole squares, this one among them. Each way divides by a constant, which is a shift.
fn among(side: usize, k: usize, size: usize) -> bool
    requires { Size size }
    ensures { result ≡ side_fine_of side k size }
{
    if size == 16 {
        (side % 16 == 0) & (k < side / 16)
    } else {
        (side % 8 == 0) & (k < side / 8)
    }
}

// The plane, and the square in it.
pub(crate) fn square_fine(len: usize, stride: usize, column: usize, row: usize, size: usize) -> bool
    requires { Size size }
    ensures { result ≡ square_fine_of len stride column row size }
{
    if stride == 0 {
        return false;
    }
    let rows = len / stride;
    (stride <= 16384)
        & (rows <= 16384)
        & (len % stride == 0)
        & among(stride, column, size)
        & among(rows, row, size)
}

// Whether there are 8 or 16 blocks, with those of the square among them.
pub(crate) fn blocks_fine(size: usize, len: usize, from: usize) -> bool
    requires { Size size }
    ensures { result ≡ blocks_fine_of size len from }
{
    if 16 < from {
        return false;
    }
    ((len == 128) | (len == 256)) & (16 * from + size * size <= len)
}

// Where the kth square of a row or a column begins.
pub(crate) fn scaled(k: usize, size: usize) -> usize
    requires { (k ≤ 16384) × (size ≤ 16384) }
    ensures { result ≡ k * size }
{
    k * size
}
