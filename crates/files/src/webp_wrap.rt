// A simple lossy WebP file (RFC 9649) written around a key frame, for C.
ghost use Rattle.std.specs.Prelude.{◌≡◌};
ghost use Rattle.files.specs.WebpCalls.{WebpWrapped, webp_wrapped_of};

use webp::write::wrap;

// The file's length goes through `written`; it is 0 after a refusal, and then `out` is as it was.
#[tactic(auto, unfolding(crate::specs::WebpCalls::webp_wrapped_of))]
pub fn webp_wrapped(frame: &[u8], out: &mut [u8], written: &mut usize) -> u32
    ensures { ◌≡◌ {A = WebpWrapped} (record { number = result; written = written.new; out = out.new })
        (webp_wrapped_of frame.now out.old) }
{
    match wrap(frame, out) {
        Ok(n) => {
            *written = n;
            0
        }
        Err(error) => {
            *written = 0;
            error.number()
        }
    }
}
