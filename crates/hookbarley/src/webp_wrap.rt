// A simple lossy WebP file (RFC 9649) written around a key frame.
ghost use Rattle.std.specs.Prelude.{◌≡◌};
ghost use Rattle.files.specs.WebpCalls.{WebpWrapped, webp_wrapped_of};

use files::webp_wrap::webp_wrapped;

// The file's length goes through `written`; it is 0 after a refusal, and then `out` is as it was.
pub fn hookbarley_webp_wrap(frame: &[u8], out: &mut [u8], written: &mut usize) -> u32
    ensures { ◌≡◌ {A = WebpWrapped} (record { number = result; written = written.new; out = out.new })
        (webp_wrapped_of frame.now out.old) }
{
    webp_wrapped(frame, out, written)
}
