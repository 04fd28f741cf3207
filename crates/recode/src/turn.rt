// One macroblock in its place: its modes are read, its tokens read and written again, and what it leaves below it and to its right.
ghost use Rattle.std.specs.Prelude.{◌≡◌, length};
ghost use Rattle.header.specs.Header.{probability_count};
ghost use Rattle.lent.specs.Memory.{packed};
ghost use Rattle.recode.specs.TurnCopies.{flow_at, TokensTurned, TurnCopies};
ghost use Rattle.recode.specs.BlockCopies.{ResidualCopies};

use crate::block::{Flow, copy_residual};
use crate::pipe::Pipe;
use choices::beside::beside;
use header::frame::Frame;
use lent::columns::{read_column, write_column};
use macroblock::arguments::Around;
use modes::answers::Kinds;
use modes::contexts::{Context, bottom, right};
use modes::whole::read_modes;
use reader::boolean::Reader;
use wide::wide::{narrow, widen};
use writer::Writer;

// What a macroblock is recoded with: the readers of the first partition and of its token partition, the writer, what it shares with all, what
// lies to its left, its column.
#[derive(Clone, Copy)]
pub struct Task {
    pub first: Reader,
    pub token: Reader,
    pub writer: Writer,
    pub frame: Frame,
    pub left: Context,
    pub column: usize,
}

// The readers and the writer after it, and what the next macroblock of the row sees to its left.
#[derive(Clone, Copy)]
pub struct Turned {
    pub first: Reader,
    pub token: Reader,
    pub writer: Writer,
    pub left: Context,
}

// Its tokens, read and written again.
fn tokens_copied(
    tokens: &[u8],
    table: &[u8],
    task: Task,
    around: Around,
    kinds: Kinds,
    out: &mut [u8],
) -> Flow
    requires { length table.now ≡ probability_count }
    ensures { ResidualCopies table.now kinds.small kinds.skip tokens.now (flow_at task around) out.old
        result out.new }
{
    let top = around.top;
    let left = around.left;
    let above = top.flags;
    let aside = left.flags;
    let reader = widen(task.token);
    let writer = task.writer;
    let start = Flow {
        pipe: Pipe { reader, writer },
        top: above,
        left: aside,
    };
    copy_residual(tokens, start, out, table, kinds.small, kinds.skip)
}

// The same, and what it leaves, its modes being known.
fn tokens_turned(
    tokens: &[u8],
    table: &[u8],
    task: Task,
    around: Around,
    kinds: Kinds,
    next: Reader,
    modes: &[u8; 16],
    columns: &mut [u8],
    out: &mut [u8],
) -> Turned
    requires { length table.now ≡ probability_count }
    ensures { TokensTurned tokens.now table.now task around kinds next modes.now
        columns.old out.old result columns.new out.new }
{
    let flow = tokens_copied(tokens, table, task, around, kinds, &mut out[..]);
    let end = flow.pipe;
    let after = end.reader;
    let written = end.writer;
    let under = flow.top;
    let beyond = flow.left;
    let lowest = bottom(modes);
    let rightmost = right(modes);
    let below = Context {
        modes: lowest,
        flags: under,
    };
    let _ = write_column(&mut columns[..], task.column, below);
    let token = narrow(tokens, after);
    Turned {
        first: next,
        token,
        writer: written,
        left: Context {
            modes: rightmost,
            flags: beyond,
        },
    }
}

// Where its modes are not there nothing is written: that is never so in a tile that was decoded whole.
pub(crate) fn turn(
    first: &[u8],
    tokens: &[u8],
    table: &[u8],
    task: Task,
    columns: &mut [u8],
    out: &mut [u8],
) -> Turned
    requires { length table.now ≡ probability_count }
    ensures { TurnCopies packed first.now tokens.now table.now task columns.old out.old
        result columns.new out.new }
{
    let found = read_column(columns, task.column);
    let top = found.context;
    let left = beside(task.column, task.left);
    let r = task.first;
    let frame = task.frame;
    let announced = frame.announced;
    let top_modes = top.modes;
    let left_modes = left.modes;
    let mut modes = [0; 16];
    let read = read_modes(first, announced, r, top_modes, left_modes, &mut modes);
    let Ok((kinds, next)) = read.answer else {
        let token = task.token;
        let writer = task.writer;
        return Turned {
            first: r,
            token,
            writer,
            left,
        };
    };
    let around = Around { top, left };
    tokens_turned(
        tokens,
        table,
        task,
        around,
        kinds,
        next,
        &modes,
        &mut columns[..],
        &mut out[..],
    )
}
