// The simple lossy WebP file of RFC 9649: a key frame found in its file, and a file written around a key frame. `read` has the reader,
// `write` the writer.
#![tactic(auto)]

pub mod read;
pub mod write;
