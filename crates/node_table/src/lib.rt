// The nodes' table: its columns, and refusal 3 of document 01. A file that is not whole reads as one without rows, and so has no bad one.
#![tactic(auto)]

mod row;

ghost use Rattle.std.specs.Prelude.{◌≡◌};
ghost use Rattle.meaning.specs.Tables.{nodes_stage};
ghost use Rattle.layout.specs.Readable.{readable};
ghost use Rattle.node_table.specs.Columns.{nodes_of};

use meaning::{Judgement, Kw};

// Zones and demand of each node.
#[derive(Clone, Copy)]
pub struct NodeColumns {
    pub generation_zone: [usize; 256],
    pub demand_zone: [usize; 256],
    pub demand: [Kw; 256],
}

// The columns of the nodes.
pub fn columns(file: &[u8]) -> NodeColumns
    ensures { result ≡ nodes_of (readable file.now) }
{
    let rows = layout::section(file, layout::NODES);
    let generation_zone = fields::column(file, rows, 12);
    let demand_zone = fields::column(file, rows, 16);
    let demand = fields::column(file, rows, 20);
    NodeColumns {
        generation_zone,
        demand_zone,
        demand,
    }
}

// 3: the lowest node that is not sound.
pub fn judge(file: &[u8]) -> Judgement
    ensures { result ≡ nodes_stage (readable file.now) }
{
    let rows = layout::section(file, layout::NODES);
    row::stage(file, rows, layout::settings(file))
}
