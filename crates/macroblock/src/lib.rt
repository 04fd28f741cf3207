// One macroblock: what it is given (arguments), whether that lies in its range (checks), and how it ends once its modes and its residual
// are read (ending).
#![tactic(auto)]

pub mod arguments;
pub mod checks;
pub mod ending;
mod squares;
