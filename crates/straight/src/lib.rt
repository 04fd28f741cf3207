// The kernel in two steps without branches, for many positions of an edge side by side: whether a rule acts on eight samples (limits), and
// what it does, told whether (steps).
#![tactic(auto)]

pub mod limits;
pub mod steps;
