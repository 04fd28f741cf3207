// Memory as records of one width, side by side: one is written whole or not at all, and read whole or not at all.
ghost use Rattle.std.specs.Prelude.{◌≡◌, ◌≤◌, ◌<◌, ◌+◌, ◌*◌, ◌/◌, length, replicate};
ghost use Rattle.numbers.specs.Runs.{copied};
ghost use Rattle.lent.specs.Memory.{Written, FoundRecord, record_written, record_found};

use numbers::Refused;

// `bytes` into mem, from the place `at` on.
pub(crate) fn store(mem: &mut [u8], at: usize, bytes: &[u8])
    requires { at + length bytes.now ≤ length mem.old }
    ensures { mem.new ≡ copied mem.old at bytes.now 0 (length bytes.now) }
{
    let end = at + bytes.len();
    mem[at..end].copy_from_slice(bytes);
}

// Where record i starts in n bytes.
fn start(i: usize, width: usize, n: usize) -> usize
    requires { (0 < width) × (i < n / width) }
    ensures { (result ≡ i * width) × (result + width ≤ n) }
{
    i * width
}

// Writes record i, which is as wide as `bytes`.
pub(crate) fn write(mem: &mut [u8], i: usize, fine: bool, bytes: &[u8]) -> Result<(), Refused>
    requires { 0 < length bytes.now }
    ensures { ◌≡◌ {A = Written} (record { answer = result; mem = mem.new })
        (record_written (length bytes.now) mem.old i fine bytes.now) }
{
    let width = bytes.len();
    if mem.len() / width <= i {
        return Err(Refused::OutOfRange);
    }
    if !fine {
        return Err(Refused::OutOfRange);
    }
    let at = start(i, width, mem.len());
    store(mem, at, bytes);
    Ok(())
}

// Reads record i, which is as wide as `bytes`: zeros, and so they stay where it is refused.
pub(crate) fn read(mem: &[u8], i: usize, bytes: &mut [u8]) -> Result<(), Refused>
    requires { (0 < length bytes.old) × (bytes.old ≡ replicate (length bytes.old) 0) }
    ensures { ◌≡◌ {A = FoundRecord} (record { answer = result; bytes = bytes.new })
        (record_found (length bytes.old) mem.now i) }
{
    let width = bytes.len();
    if mem.len() / width <= i {
        return Err(Refused::OutOfRange);
    }
    let at = start(i, width, mem.len());
    let end = at + width;
    store(bytes, 0, &mem[at..end]);
    Ok(())
}
