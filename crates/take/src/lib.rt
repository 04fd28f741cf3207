// THE call: a key frame's own header, made into what the picture call takes; and the same with the 1096 entries lent by the caller, which
// keep what they held unless all is taken.
#![tactic(auto)]

ghost use Rattle.std.specs.Prelude.{◌≡◌};
ghost use Rattle.frame.specs.declared.take.Taken.{Taken};
ghost use Rattle.frame.specs.Take.{taken_of, stored_of, into_of};

use frame::tag::{first_size, good};
use frame::take::{Answer, Taken, nothing, read, refused};
use header::entries;
use tile::Span;
use tile::partitions::part;

// A key frame's own header.
pub fn take(bytes: &[u8]) -> Taken
    ensures { result ≡ taken_of bytes.now }
{
    let size = first_size(bytes);
    let key = good(bytes);
    let inside = 10 + size <= bytes.len();
    if !key {
        return nothing(12);
    }
    if !inside {
        return nothing(13);
    }
    if size < 2 {
        return nothing(14);
    }
    let first = Span {
        start: 10,
        len: size,
    };
    read(bytes, part(bytes, first))
}

// Copies the entries, where there are as many as are lent; else nothing.
pub fn store(header: &mut [i32], entries: &[i32])
    ensures { header.new ≡ stored_of header.old entries.now }
{
    if header.len() == entries.len() {
        header.copy_from_slice(entries);
    }
}

// 9 where there are not 1096 entries, before anything else.
pub fn take_into(bytes: &[u8], header: &mut [i32]) -> Answer
    ensures { ◌≡◌ {A = Taken} (record { answer = result; header = header.new })
        (into_of bytes.now header.old) }
{
    if header.len() != entries::ENTRY_COUNT {
        return refused(9);
    }
    let t = take(bytes);
    let answer = t.answer;
    if answer.number == 0 {
        store(header, &t.header);
    }
    answer
}
