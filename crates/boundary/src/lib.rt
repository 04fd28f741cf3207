// What passes between the calls below and C: a tile as 28 numbers (tile_numbers), and the call on a key frame's own header, whole.
#![tactic(auto)]

pub mod frame_header;
pub mod tile_numbers;
