// The lent memory before the first macroblock. Filled first, so that what no macroblock reaches needs no code after the loops.
#![tactic(auto)]

ghost use Rattle.std.specs.Prelude.{◌≡◌};
ghost use Rattle.lent.specs.Memory.{Memory, memory_of, filled, blank_of};

// In parts, since a C library stores a long run of one value byte by byte, and a short one in wide pieces.
pub fn fill(mem: &mut [u8], value: u8)
    ensures { mem.new ≡ filled mem.old value }
{
    let mut at = 0;
    // Stays a while: its step is a part.
    while at < mem.len() {
        let n = (mem.len() - at).min(1024);
        mem[at..at + n].fill(value);
        at += n;
    }
}

// Planes 128, the rest 0.
pub fn blank(
    y: &mut [u8],
    u: &mut [u8],
    v: &mut [u8],
    columns: &mut [u8],
    modes: &mut [u8],
    strengths: &mut [u8],
)
    ensures { ◌≡◌ {A = Memory}
        (memory_of y.new u.new v.new columns.new modes.new strengths.new)
        (blank_of
        (memory_of y.old u.old v.old
        columns.old modes.old strengths.old)) }
{
    fill(&mut y[..], 128);
    fill(&mut u[..], 128);
    fill(&mut v[..], 128);
    fill(&mut columns[..], 0);
    fill(&mut modes[..], 0);
    fill(&mut strengths[..], 0);
}
