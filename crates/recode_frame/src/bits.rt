// Literals, read and written again (RFC 6386, section 8): L(n), and a number with its sign where a flag says that it is given.
ghost use Rattle.std.specs.Prelude.{ℕ};
ghost use Rattle.frame.specs.Header.{literal, signed, four_signed, prob};
ghost use Rattle.recode_frame.specs.HeaderCopies.{Copied};

use recode::pipe::{Pipe, ask};

// L(n); nobody asks what it is.
pub(crate) fn copy_bits(s: &[u8], p: Pipe, out: &mut [u8], n: usize) -> Pipe
    ensures { Copied (literal n) s.now p out.old result out.new }
{
    let mut next = p;
    for _i in 0..n {
        let a = ask(s, next, out, 128);
        next = a.next;
    }
    next
}

// A flag; where it is set, n bits and a sign.
pub(crate) fn copy_signed(s: &[u8], p: Pipe, out: &mut [u8], n: usize) -> Pipe
    ensures { Copied (signed n) s.now p out.old result out.new }
{
    let given = ask(s, p, out, 128);
    let x = given.next;
    if !given.bit {
        return x;
    }
    let size = copy_bits(s, x, out, n);
    copy_bits(s, size, out, 1)
}

// Four of them.
pub(crate) fn copy_four(s: &[u8], p: Pipe, out: &mut [u8], n: usize) -> Pipe
    ensures { Copied (four_signed n) s.now p out.old result out.new }
{
    let a = copy_signed(s, p, out, n);
    let b = copy_signed(s, a, out, n);
    let c = copy_signed(s, b, out, n);
    copy_signed(s, c, out, n)
}

// A flag; where it is set, eight bits.
pub(crate) fn copy_byte(s: &[u8], p: Pipe, out: &mut [u8], chance: u8) -> Pipe
    ensures { (old : ℕ) → Copied (prob chance old) s.now p out.old result out.new }
{
    let given = ask(s, p, out, chance);
    let x = given.next;
    if !given.bit {
        return x;
    }
    copy_bits(s, x, out, 8)
}
