// The calls on WebP files as C makes them, whole, one file a call: an answer as a number, and what it has besides through lent places.
#![tactic(auto)]

pub mod webp_find;
pub mod webp_wrap;
