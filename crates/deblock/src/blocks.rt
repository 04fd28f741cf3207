// A block of 128 samples: samples copied into it and out of it, and its two forms, sixteen rows of eight and eight rows of sixteen.
ghost use Rattle.std.specs.Prelude.{◌≡◌, ℕ, ◌+◌, ◌*◌, ◌<◌, ◌≤◌, length};
ghost use Rattle.numbers.specs.Runs.{copied};
ghost use Rattle.deblock.specs.Block.{rows_copied, shuffled_of, columns_of, sample_rows};

fn copy_row(to: &mut [u8], at: usize, from: &[u8], start: usize, n: usize)
    requires { (at + n ≤ length to.old) × (start + n ≤ length from.now) }
    ensures { to.new ≡ copied to.old at from.now start n }
{
    for k in 0..n {
        to[at + k] = from[start + k];
    }
}

// Rows of n samples, v apart from the place `start` on, to where they are w apart from the place `at` on.
pub(crate) fn copy(
    to: &mut [u8],
    at: usize,
    w: usize,
    from: &[u8],
    start: usize,
    v: usize,
    rows: usize,
    n: usize,
)
    requires { (i : ℕ) → i < rows → (at + i * w + n ≤ length to.old) × (start + i * v + n ≤ length from.now) }
    ensures { to.new ≡ rows_copied to.old at w from.now start v n rows }
{
    for i in 0..rows {
        copy_row(&mut to[..], at + i * w, from, start + i * v, n);
    }
}

// The two halves, sample by sample in turn.
fn shuffled(t: &[u8; 128]) -> [u8; 128]
    ensures { result ≡ shuffled_of t.now }
{
    let mut out = [0; 128];
    for i in 0..64 {
        out[2 * i] = t[i];
        out[2 * i + 1] = t[64 + i];
    }
    out
}

// The columns of sixteen rows of eight: each of the seven bits of a place moves up by one with a shuffle.
pub(crate) fn columns(t: &[u8; 128]) -> [u8; 128]
    ensures { result ≡ columns_of t.now }
{
    let a = rows(t);
    shuffled(&a)
}

// And back: three more.
pub(crate) fn rows(t: &[u8; 128]) -> [u8; 128]
    ensures { result ≡ sample_rows t.now }
{
    let a = shuffled(t);
    let b = shuffled(&a);
    shuffled(&b)
}
