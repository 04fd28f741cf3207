// The reader: four tests of the file's layout, each for every input, and the error of the first that fails.
ghost use Rattle.std.specs.Prelude.{◌≡◌, ◌+◌, ◌<◌, ◌≤◌, length};
ghost use Rattle.webp.specs.Webp.{uint32_at, four_cc_at, marked_of, sized_of, lossy_of, filled_of, find_of, find_error_number};

// Where the frame stands in the file: its first byte's place, and its length.
#[derive(Clone, Copy, Debug, PartialEq, Eq)]
pub struct Found {
    pub start: usize,
    pub len: usize,
}

// The first test that fails.
#[derive(Clone, Copy, Debug, PartialEq, Eq)]
pub enum FindError {
    // No `RIFF`, or no `WEBP`.
    NotWebp,
    // A size that is not that of the bytes, or a pad byte that is not 0.
    WrongSize,
    // The first chunk is not `VP8 `.
    NotLossy,
}

impl FindError {
    pub fn number(self) -> u32
        ensures { result ≡ find_error_number self }
    {
        match self {
            FindError::NotWebp => 17,
            FindError::WrongSize => 18,
            FindError::NotLossy => 19,
        }
    }
}

// Four bytes, the lowest first.
#[tactic(auto, unfolding(crate::specs::Webp::uint32_at))]
fn uint32(s: &[u8], at: usize) -> usize
    requires { at + 4 ≤ length s.now }
    ensures { (result ≡ uint32_at s.now at) × (result < 4294967296) }
{
    u32::from_le_bytes([s[at], s[at + 1], s[at + 2], s[at + 3]]) as usize
}

// Whether these four characters stand at the place. One by one: a comparison of slices is a call, and takes more stack and time.
fn fourcc(s: &[u8], at: usize, c: [u8; 4]) -> bool
    requires { at ≤ 12 }
    ensures { result ≡ four_cc_at s.now at c }
{
    if s.len() < at + 4 {
        return false;
    }
    (s[at] == c[0]) & (s[at + 1] == c[1]) & (s[at + 2] == c[2]) & (s[at + 3] == c[3])
}

#[tactic(auto, unfolding(crate::specs::Webp::marked_of))]
fn marked(s: &[u8]) -> bool
    ensures { result ≡ marked_of s.now }
{
    fourcc(s, 0, [b'R', b'I', b'F', b'F']) && fourcc(s, 8, [b'W', b'E', b'B', b'P'])
}

// Whether the RIFF size is that of the bytes.
#[tactic(auto, unfolding(crate::specs::Webp::sized_of))]
fn sized(s: &[u8]) -> bool
    ensures { result ≡ sized_of s.now }
{
    8 <= s.len() && uint32(s, 4) + 8 == s.len()
}

#[tactic(auto, unfolding(crate::specs::Webp::lossy_of))]
fn lossy(s: &[u8]) -> bool
    ensures { result ≡ lossy_of s.now }
{
    fourcc(s, 12, [b'V', b'P', b'8', b' '])
}

// Whether the chunk ends where the bytes end, its pad byte, if it has one, being 0.
#[tactic(auto, unfolding(crate::specs::Webp::filled_of))]
fn filled(s: &[u8]) -> bool
    ensures { result ≡ filled_of s.now }
{
    let n = s.len();
    if n < 20 {
        return false;
    }
    let size = uint32(s, 16);
    let end = 20 + size;
    let odd = size % 2;
    if end + odd != n {
        return false;
    }
    odd == 0 || s[end] == 0
}

// The key frame in the bytes of a file.
#[tactic(auto, using(crate::specs::ReadLaws::filled_long), unfolding(crate::specs::Webp::find_of, crate::specs::Webp::find_refusal))]
pub fn find(bytes: &[u8]) -> Result<Found, FindError>
    ensures { result ≡ find_of bytes.now }
{
    if !marked(bytes) {
        return Err(FindError::NotWebp);
    }
    if !sized(bytes) {
        return Err(FindError::WrongSize);
    }
    if !lossy(bytes) {
        return Err(FindError::NotLossy);
    }
    if !filled(bytes) {
        return Err(FindError::WrongSize);
    }
    Ok(Found {
        start: 20,
        len: uint32(bytes, 16),
    })
}
