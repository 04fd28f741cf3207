// The coefficients of a block: what its tokens stand for (RFC 6386, section 13), read one symbol after the other until a byte is missing.
#![tactic(auto)]

pub mod block;
