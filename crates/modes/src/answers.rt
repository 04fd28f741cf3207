// What stands before a macroblock's modes; small where its luma modes are sixteen small ones.
#[derive(Clone, Copy, Debug, PartialEq, Eq)]
pub struct Prefix {
    pub segment: u8,
    pub skip: bool,
    pub small: bool,
}

// A macroblock's modes but for the sixteen of its luma, which stand in an array beside it.
#[derive(Clone, Copy, Debug, PartialEq, Eq)]
pub struct Kinds {
    pub segment: u8,
    pub skip: bool,
    pub small: bool,
    pub chroma: u8,
}
