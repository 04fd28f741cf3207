// A symbol read and written again with the same probability (RFC 6386, section 7.3, both ways).
ghost use Rattle.std.specs.Prelude.{◌≡◌};
ghost use Rattle.recode.specs.Ask.{asked_of, ask_of};

use wide::wide::Wide;
use writer::Writer;

// Where symbols are read from, and where they are written to.
#[derive(Clone, Copy)]
pub struct Pipe {
    pub reader: Wide,
    pub writer: Writer,
}

// A symbol, and the pipe after it.
#[derive(Clone, Copy)]
pub struct Asked {
    pub bit: bool,
    pub next: Pipe,
}

// The wide reader refuses nothing: past the partition's end it reads zeros, and that is never so in a tile that was decoded whole.
pub fn ask(s: &[u8], p: Pipe, out: &mut [u8], prob: u8) -> Asked
    ensures { asked_of result out.new ≡ ask_of s.now p out.old prob }
{
    let r = p.reader;
    let w = p.writer;
    let full = r.fill(s);
    let b = full.bit(prob);
    let next = b.next;
    let written = w.write(out, prob, b.on);
    Asked {
        bit: b.on,
        next: Pipe {
            reader: next,
            writer: written,
        },
    }
}
