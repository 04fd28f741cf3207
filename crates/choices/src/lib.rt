// The small choices of a picture call: which argument check refuses it (checks), how it ends (answer), what lies to the left of a macroblock
// (beside).
#![tactic(auto)]

pub mod answer;
pub mod beside;
pub mod checks;
