// The marks: 0 for a macroblock that the picture call finishes, 1 for one that is rebuilt from its modes, 2 for one that is grey.
ghost use Rattle.std.specs.Prelude.{◌≡◌, length};
ghost use Rattle.rescue.specs.Rescue.{mark_of_of, marks_of};

fn mark_of(whole: usize, saved: usize, i: usize) -> u8
    ensures { result ≡ mark_of_of whole saved i }
{
    if i < whole {
        return 0;
    }
    if i < saved {
        return 1;
    }
    2
}

pub(crate) fn mark(marks: &mut [u8], whole: usize, saved: usize)
    ensures { marks.new ≡ marks_of (length marks.old) whole saved }
{
    for (i, place) in marks.iter_mut().enumerate() {
        *place = mark_of(whole, saved, i);
    }
}
