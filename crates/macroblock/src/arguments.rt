// What a macroblock is given beside its bytes and its planes.
use modes::contexts::Context;
use reader::boolean::Reader;

// Where it stands: its column and row of macroblocks, and the picture's width in samples.
#[derive(Clone, Copy)]
pub struct Place {
    pub column: usize,
    pub row: usize,
    pub width: usize,
}

// Where its modes are read, in the first partition, and its tokens, in the token partition of its row.
#[derive(Clone, Copy)]
pub struct Readers {
    pub first: Reader,
    pub token: Reader,
}

// What the macroblocks above it and to its left have left.
#[derive(Clone, Copy)]
pub struct Around {
    pub top: Context,
    pub left: Context,
}

// How many symbols were read: from the first partition, and from token partitions.
#[derive(Clone, Copy)]
pub struct SymbolCounts {
    pub first: u64,
    pub tokens: u64,
}
