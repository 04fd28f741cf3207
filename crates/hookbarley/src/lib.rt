// The calls that a program in C or Rust makes, one file a call, on numbers and slices: a tile is 28 numbers (boundary). Crate hookbarley_c
// exports each under its own name.
#![tactic(auto)]

pub mod deblocking;
pub mod decoding;
pub mod explaining;
pub mod filtering;
pub mod frame_header;
pub mod frame_recoding;
pub mod profiling;
pub mod recoding;
pub mod rescuing;
pub mod showing;
pub mod surveying;
pub mod webp_find;
pub mod webp_wrap;
