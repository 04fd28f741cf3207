// What a call is lent: how long each memory is (sizes), what it holds before the first macroblock (memory), and its records: those
// of macroblock columns (columns) and those of macroblocks, modes and strengths (macroblocks).
#![tactic(auto)]

pub mod columns;
pub mod macroblocks;
pub mod records;
pub mod sizes;
