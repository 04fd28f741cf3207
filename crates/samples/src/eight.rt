// Eight samples across an edge, by value and back into lent memory.
ghost use Rattle.std.specs.Prelude.{◌≡◌, length};

pub(crate) fn eight_samples(s: &[u8]) -> [u8; 8]
    requires { length s.now ≡ 8 }
    ensures { result ≡ s.now }
{
    [s[0], s[1], s[2], s[3], s[4], s[5], s[6], s[7]]
}

// Stores eight samples.
pub(crate) fn put_samples(s: &mut [u8], e: [u8; 8])
    requires { length s.old ≡ 8 }
    ensures { s.new ≡ e }
{
    s.copy_from_slice(&e);
}
