// A file's tables, read and judged in their order: each once, and only where nothing before it stops the file.
ghost use Rattle.std.specs.Prelude.{◌≡◌};
ghost use Rattle.meaning.specs.Answers.{◌or_else◌};
ghost use Rattle.layout.specs.Readable.{readable};
ghost use Rattle.tables.specs.Order.{rows_after};
ghost use Rattle.tables.specs.Opens.{Columns};

use crate::Opened;
use meaning::Judgement;

// What stops the file first among 3, 4 and 5 where its frame was judged so, and the columns that were read on the way, in the room that was lent for them: each `Result` that holds them keeps room for them on the stack.
pub fn tables(frame: Judgement, file: &[u8], room: &mut Opened) -> Judgement
    ensures rows { result ≡ (frame or_else rows_after (readable file.now)) }
    ensures columns { Columns frame file.now room.old room.new }
{
    room.counts = layout::counts(file);
    room.settings = layout::settings(file);
    frame?;
    node_table::judge(file)?;
    room.nodes = node_table::columns(file);
    let circuits = circuit_table::judge(file, &mut room.circuits);
    circuits?;
    station_table::judge(file, &mut room.by_type)
}
