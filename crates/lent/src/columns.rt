// The records of macroblock columns: each holds the context that the macroblock above leaves, in the bytes of crate `column`.
ghost use Rattle.std.specs.Prelude.{◌≡◌};
ghost use Rattle.lent.specs.Memory.{Written, column_written, column_found};

use crate::records::{read, write};
use column::{pack, unpack};
use modes::contexts::{Context, context_fine};
use numbers::Refused;

pub const COLUMN_WIDTH: usize = 4;

// A column's context as it was found; the empty one where it is refused.
// Stays beside the answer: callers use the context without a test, and a refused read promises the empty one.
#[derive(Clone, Copy)]
pub struct ColumnRecord {
    pub answer: Result<(), Refused>,
    pub context: Context,
}

// Writes the context of column x.
pub fn write_column(mem: &mut [u8], x: usize, c: Context) -> Result<(), Refused>
    ensures { ◌≡◌ {A = Written} (record { answer = result; mem = mem.new }) (column_written mem.old x c) }
{
    let bytes = pack(c);
    write(mem, x, context_fine(c), &bytes)
}

// Reads the context of column x, in range or not.
pub fn read_column(mem: &[u8], x: usize) -> ColumnRecord
    ensures { result ≡ column_found mem.now x }
{
    let mut b = [0u8; COLUMN_WIDTH];
    let answer = read(mem, x, &mut b);
    ColumnRecord {
        answer,
        context: unpack(b),
    }
}
