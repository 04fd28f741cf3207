// The key frame's own header (RFC 6386, sections 9 and 19.2): what stands before the first macroblock, made into what the picture call
// takes. In order: the tag and the sizes (tag), literals (literal), the parts of the coded header (segments, filter, quantizers, probs) and
// the whole (coded), its numbers as entries (entries), the token partitions (places), and all that is taken (take).
#![tactic(auto)]

mod coded;
mod entries;
pub mod fields;
mod filter;
mod literal;
mod places;
mod probs;
mod quantizers;
mod segments;
pub mod tables;
pub mod tag;
pub mod take;
