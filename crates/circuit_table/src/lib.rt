// The circuits' table: its columns, and refusal 4 of document 01. A file that is not whole reads as one without rows, and so has no bad one.
#![tactic(auto)]

mod factor;
mod lengths;
mod row;

ghost use Rattle.std.specs.Prelude.{◌≡◌};
ghost use Rattle.meaning.specs.Tables.{circuits_stage};
ghost use Rattle.layout.specs.Readable.{readable};
ghost use Rattle.circuit_table.specs.Columns.{circuits_of};

use meaning::Judgement;

// Numbers of each circuit's end nodes, the count of nodes where there is none; reactance, expanded length in mm, local mark.
#[derive(Clone, Copy)]
pub struct CircuitColumns {
    pub first: [usize; 512],
    pub second: [usize; 512],
    pub x: [u64; 512],
    pub length: [u64; 512],
    pub mark: [u64; 512],
}

// The columns of the circuits.
fn columns(file: &[u8]) -> CircuitColumns
    ensures { result ≡ circuits_of (readable file.now) }
{
    let nodes = layout::section(file, layout::NODES);
    let rows = layout::section(file, layout::CIRCUITS);
    let factors = layout::settings(file);
    let first = names::places(file, nodes, rows, 0);
    let second = names::places(file, nodes, rows, 12);
    let x = fields::column(file, rows, 28);
    let length = lengths::by_circuit(file, rows, factors);
    let mark = fields::column(file, rows, 40);
    CircuitColumns {
        first,
        second,
        x,
        length,
        mark,
    }
}

// 4: the lowest circuit that is not sound. The columns are in the room that was lent for them, those of a table that is stopped too; names are resolved once for both.
pub fn judge(file: &[u8], room: &mut CircuitColumns) -> Judgement
    ensures judged { result ≡ circuits_stage (readable file.now) }
    ensures read { room.new ≡ circuits_of (readable file.now) }
{
    let nodes = layout::section(file, layout::NODES);
    let rows = layout::section(file, layout::CIRCUITS);
    let read = columns(file);
    let judged = row::stage(file, nodes.count as usize, rows, &read);
    *room = read;
    judged
}
