// One macroblock in its place: the context above it from column memory, then its modes, samples, strengths and what it leaves
// below it and to its right. Where a byte is missing nothing is written.
ghost use Rattle.std.specs.Prelude.{◌*◌, ◌/◌, ◌%◌, ◌≤◌, ◌<◌, ◌≡◌};
ghost use Rattle.lent.specs.Memory.{memory_of, records_in, column_width, packed, column_at};
ghost use Rattle.macroblock.specs.Macroblock.{planes_of, step_of, reads_of, Ready, Laid};
ghost use Rattle.choices.specs.Choices.{beside_of};
ghost use Rattle.picture.specs.Picture.{Room, turned_of, turned};

use choices::beside::beside;
use header::frame::Frame;
use lent::columns::{read_column, write_column};
use lent::macroblocks::{write_mode_record, write_strength};
use macroblock::arguments::{Around, Place, Readers, SymbolCounts};
use macroblock::ending::Unfinished;
use modes::contexts::Context;
use whole::decode;

// Where it ended, what the next macroblock of the row sees to its left, and how many symbols were read.
#[derive(Clone, Copy)]
pub(crate) struct Ending {
    pub answer: Result<Readers, Unfinished>,
    pub left: Context,
    pub reads: SymbolCounts,
}

// What macroblock k is decoded with: its two readers, what it shares with all, what lies to its left, its place.
#[derive(Clone, Copy)]
pub struct Task {
    pub readers: Readers,
    pub frame: Frame,
    pub left: Context,
    pub place: Place,
    pub k: usize,
}

// That of macroblock k, in raster order, of a picture that is `wide` macroblocks wide.
pub(crate) fn task_of(readers: Readers, frame: Frame, left: Context, wide: usize, k: usize) -> Task
    requires { (0 < wide) × (wide ≤ 1024) }
    ensures { result ≡ record {
      readers = readers;
      frame = frame;
      left = left;
      place = record { column = k % wide; row = k / wide; width = wide * 16 };
      k = k;
    } }
{
    Task {
        readers,
        frame,
        left,
        place: Place {
            column: k % wide,
            row: k / wide,
            width: wide * 16,
        },
        k,
    }
}

// What a macroblock of that column finds above it and to its left.
fn around(columns: &[u8], column: usize, left: Context) -> Around
    requires { column < records_in column_width columns.now }
    ensures { result ≡ record { top = column_at packed columns.now column; left = beside_of column left } }
{
    let found = read_column(columns, column);
    let top = found.context;
    Around {
        top,
        left: beside(column, left),
    }
}

pub(crate) fn turn(
    first: &[u8],
    tokens: &[u8],
    table: &[u8],
    task: Task,
    y: &mut [u8],
    u: &mut [u8],
    v: &mut [u8],
    columns: &mut [u8],
    modes: &mut [u8],
    strengths: &mut [u8],
) -> Ending
    requires ready { Ready first.now tokens.now task.readers task.frame table.now
        (record { top = column_at packed columns.old task.place.column; left = beside_of task.place.column task.left }) }
    requires laid { Laid task.place (planes_of y.old u.old v.old) }
    requires room { Room packed task.place.column task.k columns.old modes.old strengths.old }
    ensures { (turned_of result.answer result.left
        (memory_of y.new u.new v.new columns.new modes.new strengths.new)
        ≡ turned packed task.left task.k task.place.column
        (memory_of y.old u.old v.old columns.old modes.old strengths.old)
        (step_of first.now tokens.now task.readers task.frame table.now
        (record { top = column_at packed columns.old task.place.column; left = beside_of task.place.column task.left })
        task.place (planes_of y.old u.old v.old)))
        × (result.reads ≡ reads_of first.now tokens.now task.readers task.frame table.now
        (record { top = column_at packed columns.old task.place.column; left = beside_of task.place.column task.left })) }
{
    let place = task.place;
    let near = around(columns, place.column, task.left);
    let read = decode(
        first,
        tokens,
        task.readers,
        task.frame,
        table,
        near,
        place,
        y,
        u,
        v,
    );
    let m = read.outcome;
    let reads = read.reads;
    let answer = m.answer;
    let Ok(after) = answer else {
        let before = task.left;
        return Ending {
            answer,
            left: before,
            reads,
        };
    };
    let below = m.top;
    let kinds = m.kinds;
    let all = m.modes;
    let strength = m.strength;
    let right = m.left;
    let _ = write_column(&mut columns[..], place.column, below);
    let _ = write_mode_record(&mut modes[..], task.k, kinds, &all);
    let _ = write_strength(&mut strengths[..], task.k, strength, kinds);
    Ending {
        answer: Ok(after),
        left: right,
        reads,
    }
}
