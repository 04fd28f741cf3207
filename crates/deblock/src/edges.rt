// Sixteen positions of an edge side by side, in a block of 128 samples: sample k of position i stands at i + 16 * k. The compiler takes
// them together, so no way through them hangs on a sample.
ghost use Rattle.std.specs.Prelude.{◌≡◌, false, ℕ, ◌+◌, ◌<◌, length, get_or};
ghost use Rattle.deblock.specs.Deblock.{across_of, laid_back, sweep_of};
ghost use Rattle.deblock.specs.Block.{acting_of};

use straight::limits::acts;
use straight::steps::straight;

// What the kernel is told of an edge: the simple filter or the normal one, a macroblock's edge or an inner one, and the three numbers.
#[derive(Clone, Copy, Debug, PartialEq, Eq)]
pub struct Edge {
    pub simple: bool,
    pub outer: bool,
    pub limit: u8,
    pub inner: u8,
    pub threshold: u8,
}

// The eight samples of position i.
fn across(t: &[u8], i: usize) -> [u8; 8]
    requires { i + 112 < length t.now }
    ensures { result ≡ across_of t.now i 16 }
{
    let mut e = [0; 8];
    for k in 0..8 {
        e[k] = t[i + k * 16];
    }
    e
}

// Six of them back: the outermost two never move.
fn put_six(t: &mut [u8], i: usize, e: &[u8; 8])
    requires { i + 112 < length t.old }
    ensures { t.new ≡ laid_back t.old i 16 e.now 6 }
{
    for k in 0..6 {
        t[i + (k + 1) * 16] = e[k + 1];
    }
}

// Whether a rule acts, position by position.
fn acting(t: &[u8], g: Edge) -> [bool; 16]
    requires { length t.now ≡ 128 }
    ensures { result ≡ acting_of g t.now }
{
    let mut m = [false; 16];
    for i in 0..16 {
        let e = across(t, i);
        m[i] = acts(&e, g.simple, g.limit, g.inner);
    }
    m
}

fn any(m: &[bool; 16]) -> bool
    ensures { result ≡ false → (i : ℕ) → i < 16 → get_or m.now i false ≡ false }
{
    // All are looked at, and not until the first, so that the compiler takes them together.
    let mut found = false;
    for i in 0..16 {
        found = m[i] | found;
    }
    found
}

// Each position, told whether a rule acts.
fn filtered(t: &mut [u8], m: &[bool; 16], g: Edge)
    requires t_len { length t.old ≡ 128 }
    requires m_value { m.now ≡ acting_of g t.old }
    ensures { t.new ≡ sweep_of g 0 1 16 16 t.old }
{
    for i in 0..16 {
        let e = across(&t[..], i);
        let f = straight(&e, g.simple, g.outer, g.threshold, m[i]);
        put_six(&mut t[..], i, &f);
    }
}

// The sixteen positions of the block; false where nothing moved.
pub(crate) fn sweep(t: &mut [u8], g: Edge) -> bool
    requires { length t.old ≡ 128 }
    ensures t_after { t.new ≡ sweep_of g 0 1 16 16 t.old }
    ensures t_unchanged { result ≡ false → t.new ≡ t.old }
{
    let m = acting(&t[..], g);
    if any(&m) {
        filtered(&mut t[..], &m, g);
        return true;
    }
    false
}
