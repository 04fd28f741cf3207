// What is answered of a macroblock's residual.
ghost use Rattle.std.specs.Prelude.{◌≡◌};
ghost use Rattle.residual.specs.Residual.{no_residual_of};

use reader::boolean::Read;

// Whether the macroblock is empty, and the reader after it. The flags for the macroblocks below and to the right stay beside the answer:
// a caller is promised that they are zeros where it is an Err.
#[derive(Clone, Copy)]
pub struct Residual {
    pub answer: Read<bool>,
    pub top: [u8; 9],
    pub left: [u8; 9],
}

// The residual, and how many symbols were read; where one is missing, those before it.
#[derive(Clone, Copy)]
pub struct ResidualRead {
    pub residual: Residual,
    pub reads: u64,
}

pub(crate) fn no_residual(answer: Read<bool>, reads: u64) -> ResidualRead
    ensures { result ≡ record { residual = no_residual_of answer; reads = reads } }
{
    let residual = Residual {
        answer,
        top: [0; 9],
        left: [0; 9],
    };
    ResidualRead { residual, reads }
}
