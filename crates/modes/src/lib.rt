// The modes of a macroblock (RFC 6386, sections 8, 11 and 19.3): its segment and skip flag (prefix), its large and chroma modes
// (large), its sixteen small ones (small, table), all of them in order (whole), the same at once over a wide reader (quick), how many
// symbols the latter took (counts), and what it leaves to its neighbours (contexts).
#![tactic(auto)]

pub mod answers;
pub mod contexts;
mod counts;
pub mod large;
pub mod prefix;
mod quick;
pub mod small;
mod table;
pub mod whole;
