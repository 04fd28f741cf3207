// The call from a key frame's bytes to a key frame's bytes with one token partition.
ghost use Rattle.std.specs.Prelude.{◌≡◌};
ghost use Rattle.lent.specs.Memory.{memory_of};
ghost use Rattle.recode_frame.specs.RecodeFrame.{frame_ended, recode_frame_of};

use recode_frame::recode_frame;

// Takes the frame's header, decodes its picture and writes the frame with one token partition to the start of `out`; `written` is how many
// bytes it has, 0 after a refusal, which leaves `out` as it was.
pub fn hookbarley_recode_frame(
    bytes: &[u8],
    y: &mut [u8],
    u: &mut [u8],
    v: &mut [u8],
    columns: &mut [u8],
    modes: &mut [u8],
    strengths: &mut [u8],
    out: &mut [u8],
    written: &mut usize,
) -> u32
    ensures { frame_ended (record { number = result; len = written.new })
        (memory_of y.new u.new v.new columns.new modes.new strengths.new)
        out.new
        ≡ recode_frame_of bytes.now
        (memory_of y.old u.old v.old
        columns.old modes.old strengths.old) out.old }
{
    let r = recode_frame(bytes, y, u, v, columns, modes, strengths, out);
    *written = r.len;
    r.number
}
