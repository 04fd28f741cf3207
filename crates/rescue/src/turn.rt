// One macroblock in its place, rebuilt from its modes: the picture's turn without tokens. Where its modes run out nothing is written.
ghost use Rattle.std.specs.Prelude.{◌*◌, ◌/◌, ◌%◌, ◌≤◌, ◌<◌, ◌≡◌};
ghost use Rattle.lent.specs.Memory.{memory_of, packed, column_at};
ghost use Rattle.macroblock.specs.Macroblock.{planes_of, Laid, Legible};
ghost use Rattle.macroblock.specs.Rebuilt.{rebuilt_of};
ghost use Rattle.choices.specs.Choices.{beside_of};
ghost use Rattle.picture.specs.Picture.{Room, turned_of, turned};
ghost use Rattle.rescue.specs.Rescue.{Held};

use choices::beside::beside;
use header::frame::Frame;
use lent::columns::{read_column, write_column};
use lent::macroblocks::{write_mode_record, write_strength};
use macroblock::arguments::{Around, Place, Readers};
use macroblock::ending::Unfinished;
use modes::contexts::Context;
use picture::turn::Task;
use rebuilt::rebuild;

// Where it ended, and what the next macroblock of the row sees to its left.
#[derive(Clone, Copy)]
pub(crate) struct RebuiltTurn {
    pub answer: Result<Readers, Unfinished>,
    pub left: Context,
}

// What macroblock k is rebuilt with, in raster order, of a picture that is `wide` macroblocks wide.
pub(crate) fn task_of(readers: Readers, frame: Frame, left: Context, wide: usize, k: usize) -> Task
    requires { (0 < wide) × (wide ≤ 1024) }
    ensures { result ≡ record {
      readers = readers;
      frame = frame;
      left = left;
      place = record { column = k % wide; row = k / wide; width = wide * 16 };
      k = k;
    } }
{
    Task {
        readers,
        frame,
        left,
        place: Place {
            column: k % wide,
            row: k / wide,
            width: wide * 16,
        },
        k,
    }
}

pub(crate) fn turn(
    first: &[u8],
    task: Task,
    y: &mut [u8],
    u: &mut [u8],
    v: &mut [u8],
    columns: &mut [u8],
    modes: &mut [u8],
    strengths: &mut [u8],
) -> RebuiltTurn
    requires legible { Legible first.now task.readers.first task.frame
        (record { top = column_at packed columns.old task.place.column; left = beside_of task.place.column task.left }) }
    requires held { Held task.readers.token }
    requires laid { Laid task.place (planes_of y.old u.old v.old) }
    requires room { Room packed task.place.column task.k columns.old modes.old strengths.old }
    ensures { turned_of result.answer result.left
        (memory_of y.new u.new v.new columns.new modes.new strengths.new)
        ≡ turned packed task.left task.k task.place.column
        (memory_of y.old u.old v.old columns.old modes.old strengths.old)
        (rebuilt_of first.now task.readers task.frame
        (record { top = column_at packed columns.old task.place.column; left = beside_of task.place.column task.left })
        task.place (planes_of y.old u.old v.old)) }
{
    let place = task.place;
    let found = read_column(columns, place.column);
    let top = found.context;
    let left = beside(place.column, task.left);
    let m = rebuild(
        first,
        task.readers,
        task.frame,
        Around { top, left },
        place,
        y,
        u,
        v,
    );
    let answer = m.answer;
    let Ok(after) = answer else {
        let before = task.left;
        return RebuiltTurn {
            answer,
            left: before,
        };
    };
    let below = m.top;
    let kinds = m.kinds;
    let all = m.modes;
    let strength = m.strength;
    let right = m.left;
    let _ = write_column(&mut columns[..], place.column, below);
    let _ = write_mode_record(&mut modes[..], task.k, kinds, &all);
    let _ = write_strength(&mut strengths[..], task.k, strength, kinds);
    RebuiltTurn {
        answer: Ok(after),
        left: right,
    }
}
