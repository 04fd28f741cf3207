// A sample less another, and a sample with a step added, in 16 bits.
ghost use Rattle.std.specs.Prelude.{◌≡◌, ℤ, pos, negsuc, ◌+ℤ◌, ◌-ℤ◌};
ghost use Rattle.numbers.specs.In.{In};
ghost use Rattle.numbers.specs.Clamp.{clip_z};

pub(crate) fn minus(a: u8, b: u8) -> i16
    ensures value { result ≡ pos a -ℤ pos b }
    ensures fact { In (negsuc 254) (pos 255) result }
{
    i16::from(a) - i16::from(b)
}

pub(crate) fn plus(x: u8, step: i16) -> u8
    requires { In (negsuc 126) (pos 127) step }
    ensures { result ≡ clip_z (pos x +ℤ step) }
{
    (i16::from(x) + step).clamp(0, 255) as u8
}
