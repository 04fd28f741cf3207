// What the kernel answers.

// Which rule acts on eight samples, and why. `Rough` has the first pair of neighbours that is too far apart: 0, 1, 2 for
// p3-p2, p2-p1, p1-p0 and 3, 4, 5 for q3-q2, q2-q1, q1-q0.
#[derive(Clone, Copy, Debug, PartialEq, Eq)]
pub enum Rule {
    EdgeFailed,
    Rough(u8),
    Simple,
    HighVariance,
    MacroblockEdge,
    InnerEdge,
}
