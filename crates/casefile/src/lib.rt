// Case files: one tile with all that the picture call is given (layout), run through the call over lent memory (run), and what is
// told of the memory after it (measures). Programs call `run::run` only.
#![tactic(auto)]

mod layout;
mod measures;
pub mod run;
