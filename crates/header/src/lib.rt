// The header of a picture, 1096 entries: each by its name, and whether they are in range (entries); what a segment has of its own, its
// quantizers and its filter level (RFC 6386, sections 9.3, 9.4, 9.6 and 14.1); and all that macroblocks need of it, made once (frame).
#![tactic(auto)]

pub mod entries;
pub mod frame;
pub mod levels;
mod own;
pub mod quantizers;
