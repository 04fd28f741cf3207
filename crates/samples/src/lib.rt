// The calls on samples and planes as C makes them, whole, one file a call: an answer as a number, and what it has besides through lent
// places.
#![tactic(auto)]

pub mod deblocking;
mod eight;
pub mod explaining;
pub mod filtering;
