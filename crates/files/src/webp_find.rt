// The key frame of a simple lossy WebP file (RFC 9649), for C.
ghost use Rattle.std.specs.Prelude.{◌≡◌};
ghost use Rattle.files.specs.WebpCalls.{WebpFound, webp_found_of};

use webp::read::find;

// The frame's place and length go through `start` and `len`; both are 0 after a refusal.
#[tactic(auto, unfolding(crate::specs::WebpCalls::webp_found_of))]
pub fn webp_found(bytes: &[u8], start: &mut usize, len: &mut usize) -> u32
    ensures { ◌≡◌ {A = WebpFound} (record { number = result; start = start.new; len = len.new })
        (webp_found_of bytes.now) }
{
    match find(bytes) {
        Ok(found) => {
            *start = found.start;
            *len = found.len;
            0
        }
        Err(error) => {
            *start = 0;
            *len = 0;
            error.number()
        }
    }
}
