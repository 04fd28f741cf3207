// The three squares of a macroblock: luma 16 wide, U and V 8 wide (RFC 6386, sections 12 and 14.5).
ghost use Rattle.std.specs.Prelude.{◌≡◌, length};
ghost use Rattle.transform.specs.Lanes.{macroblock_blocks};
ghost use Rattle.modes.specs.Modes.{macroblock_of};
ghost use Rattle.macroblock.specs.Macroblock.{planes_of, squares_of};

use crate::arguments::Place;
use modes::answers::Kinds;
use planes::paint;

// Where U's four blocks begin among the eight of chroma, and where V's do.
const U_FIRST: usize = 0;

const V_FIRST: usize = 4;

// `c` has the coefficients of sixteen blocks of luma by lanes, then of eight of chroma. A square that cannot be painted stays as it was.
pub(crate) fn squares(
    y: &mut [u8],
    u: &mut [u8],
    v: &mut [u8],
    place: Place,
    kinds: Kinds,
    modes: &[u8; 16],
    c: &[i16],
)
    requires { length c.now ≡ 384 }
    ensures { planes_of y.new u.new v.new
        ≡ squares_of place (macroblock_of kinds modes.now) (macroblock_blocks c.now)
        (planes_of y.old u.old v.old) }
{
    let width = place.width;
    let half = width / 2;
    let _ = paint(
        y,
        width,
        place.column,
        place.row,
        16,
        kinds.small,
        modes[0],
        modes,
        &c[0..256],
        0,
    );
    let _ = paint(
        u,
        half,
        place.column,
        place.row,
        8,
        false,
        kinds.chroma,
        modes,
        &c[256..384],
        U_FIRST,
    );
    let _ = paint(
        v,
        half,
        place.column,
        place.row,
        8,
        false,
        kinds.chroma,
        modes,
        &c[256..384],
        V_FIRST,
    );
}
