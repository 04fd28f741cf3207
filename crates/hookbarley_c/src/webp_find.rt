// The key frame of a simple lossy WebP file (RFC 9649).
ghost use Rattle.std.specs.Prelude.{◌≡◌};
ghost use Rattle.files.specs.WebpCalls.{WebpFound, webp_found_of};

// The frame's place and length go through `start` and `len`; both are 0 after a refusal.
#[unsafe(no_mangle)]
pub extern "C" fn hookbarley_webp_find(bytes: &[u8], start: &mut usize, len: &mut usize) -> u32
    ensures { ◌≡◌ {A = WebpFound} (record { number = result; start = start.new; len = len.new })
        (webp_found_of bytes.now) }
{
    hookbarley::webp_find::hookbarley_webp_find(bytes, start, len)
}
