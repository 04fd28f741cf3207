// What the calls tell C through pointers: their answers as numbers, a file a kind of answer.
#![tactic(auto)]

pub mod counts;
pub mod profiled;
pub mod rescued;
