// The boolean decoder of RFC 6386, section 7.3, for many symbols in a row, with a 64-bit window and zero padding. It refuses nothing: its
// caller checks once, at the end, whether it ran past the partition's end (`inside`), and if it did reads again with `reader`.
#![tactic(auto)]

pub mod wide;
