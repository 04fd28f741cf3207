// The call on a key frame's own header.
ghost use Rattle.std.specs.Prelude.{◌≡◌};
ghost use Rattle.boundary.specs.FrameCalls.{FrameCalled, frame_called_of};

// Takes a key frame's own header: the entries into `header`, what else the picture call takes into `tile`, 28 numbers (else 9). After a
// refusal those are zero, and the entries as they were.
#[unsafe(no_mangle)]
pub extern "C" fn hookbarley_frame(bytes: &[u8], header: &mut [i32], tile: &mut [usize]) -> u32
    ensures { ◌≡◌ {A = FrameCalled} (record { number = result; header = header.new; tile = tile.new })
        (frame_called_of bytes.now header.old tile.old) }
{
    hookbarley::frame_header::hookbarley_frame(bytes, header, tile)
}
