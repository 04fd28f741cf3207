// The writer: twenty bytes of layout, the frame, and the pad byte that an odd frame takes.
ghost use Rattle.std.specs.Prelude.{◌≡◌, ◌+◌, ◌≤◌, length};
ghost use Rattle.webp.specs.Webp.{wrap_of, wrap_error_number};
ghost use Rattle.webp.specs.Write.{head_of, laid};

use numbers::copy;

// Why nothing was written.
#[derive(Clone, Copy, Debug, PartialEq, Eq)]
pub enum WrapError {
    // The room is too small.
    NoRoom,
    // The frame is too long for a file.
    TooLong,
}

impl WrapError {
    pub fn number(self) -> u32
        ensures { result ≡ wrap_error_number self }
    {
        match self {
            WrapError::NoRoom => 16,
            WrapError::TooLong => 18,
        }
    }
}

// What stands before a frame of n bytes.
#[tactic(auto, unfolding(crate::specs::Write::head_of))]
fn head(n: usize) -> [u8; 20]
    requires { n ≤ 4294967274 }
    ensures { result ≡ head_of n }
{
    let [a, b, c, d] = ((12 + n + n % 2) as u32).to_le_bytes();
    let [e, f, g, h] = (n as u32).to_le_bytes();
    [
        b'R', b'I', b'F', b'F', a, b, c, d, b'W', b'E', b'B', b'P', b'V', b'P', b'8', b' ', e, f,
        g, h,
    ]
}

// Stores `b` in `out`, from the place `at` on.
fn lay(out: &mut [u8], at: usize, b: &[u8])
    requires { at + length b.now ≤ length out.old }
    ensures { out.new ≡ laid out.old at b.now }
{
    copy(b, &mut out[at..]);
}

// Writes the file around `frame` at the start of `out`, and says how long it is; what lies behind it in `out` is left alone.
#[tactic(auto, using(crate::specs::WriteLaws::wrap_long, crate::specs::WriteLaws::wrap_small))]
pub fn wrap(frame: &[u8], out: &mut [u8]) -> Result<usize, WrapError>
    ensures { record { answer = result; out = out.new } ≡ wrap_of frame.now out.old }
{
    let n = frame.len();
    // The RIFF size, 12 and the padded length, is even, and so is 2^32 - 10.
    if 4294967274 < n {
        return Err(WrapError::TooLong);
    }
    let odd = n % 2;
    let end = 20 + n;
    if out.len() < end + odd {
        return Err(WrapError::NoRoom);
    }
    let first = head(n);
    let pad = [0u8; 1];
    lay(out, 0, &first);
    lay(out, 20, frame);
    lay(out, end, &pad[0..odd]);
    Ok(end + odd)
}
