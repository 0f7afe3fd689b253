// The stations' table: its columns, the TEC of each node by plant type and what counts of it, and refusal 5 of document 01. A file that is not whole reads as one without rows, and so has no bad one.
#![tactic(auto)]

mod row;
mod tec;

ghost use Rattle.std.specs.Prelude.{◌≡◌};
ghost use Rattle.meaning.specs.Tables.{stations_stage};
ghost use Rattle.layout.specs.Readable.{readable};
ghost use Rattle.station_table.specs.Columns.{stations_of};
ghost use Rattle.station_table.specs.Tec.{types_of, Possible, by_node};

use meaning::{Judgement, Kw};
use plants::Counted;

// The number of each station's node, its plant type and TEC.
#[derive(Clone, Copy)]
pub struct StationColumns {
    pub node: [usize; 512],
    pub plant: [u64; 512],
    pub tec: [Kw; 512],
}

// The columns of the stations.
fn columns(file: &[u8]) -> StationColumns
    ensures { result ≡ stations_of (readable file.now) }
{
    let nodes = layout::section(file, layout::NODES);
    let rows = layout::section(file, layout::STATIONS);
    let node = names::places(file, nodes, rows, 12);
    let plant = fields::column(file, rows, 24);
    let tec = fields::column(file, rows, 28);
    StationColumns { node, plant, tec }
}

// 5: the lowest station that is not sound. The TEC of each node by plant type, type t of node v at 7 v + t - 1, is in the room that was lent for it, that of a table that is stopped too; names are resolved once for both.
pub fn judge(file: &[u8], room: &mut [Kw; 1792]) -> Judgement
    ensures judged { result ≡ stations_stage (readable file.now) }
    ensures summed { room.new ≡ types_of (readable file.now) }
    ensures possible { Possible room.new }
{
    let nodes = layout::section(file, layout::NODES).count as usize;
    let rows = layout::section(file, layout::STATIONS);
    let columns = columns(file);
    let judged = row::stage(file, nodes, rows, &columns.node);
    *room = tec::by_type(&columns, nodes, rows.count as usize);
    judged
}

// What counts of the TEC of each node, its types added up. A cell above what 512 stations can have, which no file has, counts as none.
pub fn by_node(by_type: [Kw; 1792], counted: Counted) -> [Kw; 256]
    ensures { result ≡ by_node by_type counted }
{
    let mut sums = [Kw(0); 256];
    for v in 0..256 {
        sums[v] = tec::of_node(counted, &by_type, v);
    }
    sums
}
