// What every layer above reads by: the boolean decoder of RFC 6386 section 7.3 (boolean), trees of its symbols, section 8.1
// (trees), the tree of a coefficient's tokens (token) and the extra bits of a number (extra). Each says how many symbols it read.
// specs/ has the same as grammars: what a part of a frame asks, apart from how a reader answers.
#![tactic(auto)]

pub mod boolean;
pub mod extra;
pub mod token;
pub mod trees;
