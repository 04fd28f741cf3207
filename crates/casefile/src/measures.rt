// What is told of memory: the sum of its bytes, and their hash.
ghost use Rattle.std.specs.Prelude.{◌≡◌, ◌*◌, ◌%◌, ◌≤◌, length};
ghost use Rattle.casefile.specs.Measures.{sum_of, fnv_of, fnv_step};

pub(crate) fn sum(mem: &[u8]) -> u32
    requires { length mem.now ≤ 4096 }
    ensures { result ≡ sum_of mem.now }
{
    let mut s = 0;
    for x in mem {
        s += u32::from(*x);
    }
    s
}

// x times 2^40 + 435 modulo 2^64, in halves of 32 bits.
fn times(x: u64) -> u64
    ensures { result ≡ x * 1099511628211 % 18446744073709551616 }
{
    let high = x / 4294967296;
    let low = x % 4294967296;
    let product = low * 435;
    let above = (high * 435 + product / 4294967296 + low * 256) % 4294967296;
    above * 4294967296 + product % 4294967296
}

fn step(h: u64, byte: u8) -> u64
    ensures { result ≡ fnv_step h byte }
{
    times(h ^ u64::from(byte))
}

// FNV-1a of 64 bits.
pub(crate) fn hash(mem: &[u8]) -> u64
    ensures { result ≡ fnv_of mem.now }
{
    let mut h = 14695981039346656037;
    for x in mem {
        h = step(h, *x);
    }
    h
}
