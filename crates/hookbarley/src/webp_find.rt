// The key frame of a simple lossy WebP file (RFC 9649).
ghost use Rattle.std.specs.Prelude.{◌≡◌};
ghost use Rattle.files.specs.WebpCalls.{WebpFound, webp_found_of};

use files::webp_find::webp_found;

// The frame's place and length go through `start` and `len`; both are 0 after a refusal.
pub fn hookbarley_webp_find(bytes: &[u8], start: &mut usize, len: &mut usize) -> u32
    ensures { ◌≡◌ {A = WebpFound} (record { number = result; start = start.new; len = len.new })
        (webp_found_of bytes.now) }
{
    webp_found(bytes, start, len)
}
