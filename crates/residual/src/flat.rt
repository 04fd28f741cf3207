// The 384 coefficients of a macroblock, one block of sixteen after the other, and by lanes for the caller.
ghost use Rattle.std.specs.Prelude.{◌≡◌, ◌+◌, ◌*◌, ◌<◌, ◌≤◌, true, length, replicate, pos, negsuc};
ghost use Rattle.numbers.specs.In.{Each};
ghost use Rattle.residual.specs.Residual.{sixteen_at, stored, spread, laid_from};
ghost use Rattle.transform.specs.Lanes.{macroblock_lanes};

// The sixteen from a place on.
pub(crate) fn sixteen(flat: &[i32], at: usize) -> [i32; 16]
    requires { at + 16 ≤ length flat.now }
    ensures { result ≡ sixteen_at flat.now at }
{
    let mut c = [0; 16];
    c.copy_from_slice(&flat[at..at + 16]);
    c
}

// Sixteen stored from a place on.
pub(crate) fn store(flat: &mut [i32], at: usize, c: &[i32; 16])
    requires { at + 16 ≤ length flat.old }
    ensures { flat.new ≡ stored flat.old at c.now }
{
    flat[at..at + 16].copy_from_slice(&c[..]);
}

// The first coefficient of each luma block.
pub(crate) fn spread(flat: &mut [i32], dc: &[i32; 16])
    requires { length flat.old ≡ 384 }
    ensures { flat.new ≡ spread flat.old dc.now 16 }
{
    for k in 0..16usize {
        flat[16 * k] = dc[k];
    }
}

// The n blocks from a place on, one after the other, by lanes: number k of block i at n * k + i.
fn lay(out: &mut [i16], flat: &[i32], n: usize, from: usize)
    requires out_len { (length out.old ≡ 384) × (length flat.now ≡ 384) }
    requires n_nonzero { ((0 < n) × (from + 16 * n ≤ 384)) × Each (negsuc 32767) (pos 32767) flat.now }
    ensures { out.new ≡ laid_from out.old flat.now n from (16 * n) }
{
    for j in 0..16 * n {
        out[from + j] = flat[from + (16 * (j % n) + j / n)] as i16;
    }
}

// The blocks by lanes: sixteen of luma, then eight of chroma. Those of a macroblock that is skipped are zeros.
pub(crate) fn squares(out: &mut [i16], flat: &[i32], skip: bool)
    requires out_len { (length out.old ≡ 384) × (length flat.now ≡ 384) }
    requires each { Each (negsuc 32767) (pos 32767) flat.now × (skip ≡ true → flat.now ≡ replicate 384 (pos 0)) }
    ensures { out.new ≡ macroblock_lanes flat.now }
{
    if skip {
        out.fill(0);
        return;
    }
    lay(out, flat, 16, 0);
    lay(out, flat, 8, 256);
}
