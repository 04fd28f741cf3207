// Small functions on numbers that several crates need, and the laws that their proofs cite. All laws stand in specs/, one topic a file;
// another crate's specs and proofs cite them through specs/Words.antt.
#![tactic(auto)]

ghost use Rattle.std.specs.Prelude.{◌≡◌};
ghost use Rattle.numbers.specs.Lists.{byte_at, copied_over};
ghost use Rattle.numbers.specs.Clamp.{up_to};
ghost use Rattle.numbers.specs.Wrap.{wrap16_of};

// Why a call did nothing: an argument was out of range (9), and everything was left as it was.
#[derive(Clone, Copy, Debug, PartialEq, Eq)]
pub enum Refused {
    OutOfRange,
}

// v modulo 65536, in -32768..32767; none beyond a thousand million, either way. The multiple of 65536 that is added keeps what is divided positive.
pub fn wrap16(v: i64) -> Option<i32>
    ensures { result ≡ wrap16_of v }
{
    if (-1000000000 <= v) & (v <= 1000000000) {
        let u = (v + 4294967296) % 65536;
        if u < 32768 {
            Some(u as i32)
        } else {
            Some((u - 65536) as i32)
        }
    } else {
        None
    }
}

// v in 0..=top.
pub fn clamp_to(v: i32, top: u8) -> u8
    ensures { result ≡ up_to top v }
{
    v.clamp(0, i32::from(top)) as u8
}

// The byte at a place; past the end it is zero.
pub fn byte_or_zero(s: &[u8], i: usize) -> u8
    ensures { result ≡ byte_at s.now i }
{
    s.get(i).copied().unwrap_or(0)
}

// As much of `from` as `to` has room for, at the start of `to`; what lies behind it in `to` is left alone. A loop: the kit's
// copy_from_slice would have the archive ask for memmove.
pub fn copy(from: &[u8], to: &mut [u8])
    ensures { to.new ≡ copied_over from.now to.old }
{
    let n = from.len().min(to.len());
    for i in 0..n {
        to[i] = from[i];
    }
}
