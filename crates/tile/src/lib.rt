// What a call is given besides the memory that it is lent: the tile, the argument checks of it (checks), and its partitions, cut
// out of the bytes and opened (partitions).
#![tactic(auto)]

pub mod checks;
pub mod partitions;

use reader::boolean::Reader;

// A range of the bytes; it may end past them.
#[derive(Clone, Copy)]
pub struct Span {
    pub start: usize,
    pub len: usize,
}

// The first partition and the reader that starts in it, behind the coded header; the token partitions, of which those past the
// count are ignored; and the sides of the picture.
#[derive(Clone, Copy)]
pub struct Tile {
    pub first: Span,
    pub tokens: [Span; 8],
    pub reader: Reader,
    pub count: usize,
    pub width: usize,
    pub height: usize,
}
