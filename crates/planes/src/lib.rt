// Planes of samples: a macroblock's square predicted from what lies around it, and its residual added (RFC 6386, sections 12 and 14.5).
// A plane is lent: the sample at column x of row y is element y * stride + x.
#![tactic(auto)]

mod add;
mod blocks;
mod checks;
mod edges;
mod put;

ghost use Rattle.std.specs.Prelude.{◌≡◌};
ghost use Rattle.planes.specs.Paint.{paint_of, square_blocks};

use numbers::Refused;
use transform::lanes::residuals;

// Paints the square of macroblock (column, row): 16 samples wide in luma, where the modes may be small, and 8 in chroma.
// `coefficients` has 8 or 16 sub-blocks of 4 by 4 by lanes, number k of block i of n at n * k + i; the square's are those from block
// `from` on, in raster order. `mode` counts where `small` does not hold, `modes` where it does.
pub fn paint(
    plane: &mut [u8],
    stride: usize,
    column: usize,
    row: usize,
    size: usize,
    small: bool,
    mode: u8,
    modes: &[u8; 16],
    coefficients: &[i16],
    from: usize,
) -> Result<(), Refused>
    ensures { record { answer = result; plane = plane.new }
        ≡ paint_of plane.old stride column row size small mode modes.now
        (square_blocks size from coefficients.now) }
{
    if !checks::modes_fine(size, small, mode, modes) {
        return Err(Refused::OutOfRange);
    }
    if !checks::square_fine(plane.len(), stride, column, row, size) {
        return Err(Refused::OutOfRange);
    }
    if !checks::blocks_fine(size, coefficients.len(), from) {
        return Err(Refused::OutOfRange);
    }
    let coded = blocks::coded_blocks(coefficients, coefficients.len() / 16);
    let mut values = blocks::no_values();
    if blocks::any(&coded) {
        residuals(coefficients, &mut values);
    }
    let x = checks::scaled(column, size);
    let y = checks::scaled(row, size);
    if small {
        blocks::small_square(plane, stride, x, y, modes, &coded, &values, coefficients);
    } else {
        blocks::large_square(
            plane,
            stride,
            x,
            y,
            size,
            mode,
            &coded,
            &values,
            coefficients,
            from,
        );
    }
    Ok(())
}
