// The case file judged: refusals 1 to 7 of document 01, then 13 and 14 of document 02, and the columns of a file.
#![tactic(auto)]

mod chain;
mod read;
mod settings;

ghost use Rattle.std.specs.Prelude.{◌≡◌};
ghost use Rattle.meaning.specs.Answers.{yields};
ghost use Rattle.tables.specs.Order.{frame_stage, lengths_of, long_of};
ghost use Rattle.tables.specs.Opens.{Opens, Columns, nothing_read};

use circuit_table::CircuitColumns;
use layout::RowCounts;
use meaning::{Judgement, Kw, Refusal, Settings, Solutions};
use node_table::NodeColumns;

// A case file opened: the columns of a case that nothing among 1 to 7, 13 and 14 stops; TEC by node and plant type as `station_table` has it.
#[derive(Clone, Copy)]
pub struct Opened {
    pub counts: RowCounts,
    pub settings: Settings,
    pub nodes: NodeColumns,
    pub circuits: CircuitColumns,
    pub by_type: [Kw; 1792],
}

// How many numbers the run of each system has.
#[derive(Clone, Copy)]
pub struct Lengths {
    pub base: usize,
    pub wider: usize,
    pub local: usize,
    pub peak_base: usize,
    pub peak_wider: usize,
}

impl Lengths {
    // Of the runs that are lent.
    pub fn of(runs: &Solutions) -> Lengths
        ensures { result ≡ lengths_of runs.now }
    {
        Lengths {
            base: runs.base.len(),
            wider: runs.wider.len(),
            local: runs.local.len(),
            peak_base: runs.peak_base.len(),
            peak_wider: runs.peak_wider.len(),
        }
    }
}

// Room for the columns of a case: nothing is read.
pub fn nothing_read() -> Opened
    ensures { result ≡ nothing_read }
{
    Opened {
        counts: layout::counts(&[]),
        settings: layout::settings(&[]),
        nodes: node_table::columns(&[]),
        circuits: CircuitColumns {
            first: [0; 512],
            second: [0; 512],
            x: [0; 512],
            length: [0; 512],
            mark: [0; 512],
        },
        by_type: [Kw(0); 1792],
    }
}

// 1 and 2, before any table is read: a file that is not whole, a run of another length, a setting out of its range.
pub fn frame(file: &[u8], long: Lengths) -> Judgement
    ensures { result ≡ frame_stage file.now (long_of long) }
{
    if !layout::whole(file) {
        return Err(Refusal::BadFile);
    }
    let counts = layout::counts(file);
    let settings = layout::settings(file);
    let count = counts.nodes + counts.circuits;
    let peak = chain::peak_count(settings.edition, count);
    if chain::year_round_runs(count, long.base, long.wider, long.local)
        & chain::peak_runs(peak, long.peak_base, long.peak_wider)
    {
        return settings::stage(settings, counts.nodes);
    }
    Err(Refusal::BadFile)
}

// What stops a file first, by the lengths of the five runs: its tables are read in their order, and its names resolved once. Its columns are in the room that was lent for them; of a file that is stopped, those of the tables that were read.
pub fn open(file: &[u8], long: Lengths, room: &mut Opened) -> Judgement
    ensures judged { Opens file.now (long_of long) (yields result room.new) }
    ensures columns { Columns (frame_stage file.now (long_of long)) file.now room.old room.new }
{
    read::tables(frame(file, long), file, room)?;
    chain::grid_stage(room)
}
