// 4: the rows of the circuits' table, their ends resolved.
ghost use Rattle.std.specs.Prelude.{◌≡◌, ◌<◌};
ghost use Rattle.meaning.specs.File.{row_at, circuit_at};
ghost use Rattle.meaning.specs.Tables.{sound_circuit_row, circuits_stage};
ghost use Rattle.layout.specs.Readable.{readable};
ghost use Rattle.meaning.specs.First.{FirstFound};
ghost use Rattle.circuit_table.specs.Told.{ToldEnds, ToldCircuits, unsound_circuit};

use crate::CircuitColumns;
use crate::factor::{factor_at, sound_factor, sound_voltage};
use meaning::{Judgement, Refusal, Section};

// Whether a row, with the ends that its names have, is sound.
#[tactic(auto, using(meaning::proofs::Tables::known_place), unfolding(meaning::specs::Tables::sound_circuit_row, meaning::specs::File::circuit_at))]
fn sound_row(
    file: &[u8],
    rows: Section,
    row: u32,
    nodes: usize,
    first: usize,
    second: usize,
) -> bool
    requires { ToldEnds file.now (row_at rows row) nodes first second }
    ensures { result ≡ sound_circuit_row (readable file.now).nodes (circuit_at file.now rows.size (row_at rows row)) }
{
    let at = fields::row_at(rows, row);
    let voltage = fields::u32_at(file, at + 24);
    names::name_formed(file, at)
        & names::name_formed(file, at + 12)
        & (first < nodes)
        & (second < nodes)
        & !names::same_name(file, at, at + 12)
        & sound_voltage(voltage)
        & sound_factor(voltage, factor_at(file, rows, row))
        & fields::between(file, at + 28, 1, 10000)
        & fields::at_most(file, at + 32, 500000)
        & fields::at_most(file, at + 36, 500000)
        & fields::at_most(file, at + 40, 1)
}

// The lowest row that is not.
fn first_unsound(file: &[u8], nodes: usize, rows: Section, columns: &CircuitColumns) -> Option<u32>
    requires { ToldCircuits file.now nodes rows columns.now }
    ensures { FirstFound (unsound_circuit file.now rows) rows.count result }
{
    for row in 0..rows.count {
        let first = columns.first[row as usize];
        let second = columns.second[row as usize];
        if !sound_row(file, rows, row, nodes, first, second) {
            return Some(row);
        }
    }
    None
}

// The stage: the lowest row that is malformed, out of range, or has an unknown end or equal ends.
pub fn stage(file: &[u8], nodes: usize, rows: Section, columns: &CircuitColumns) -> Judgement
    requires { ToldCircuits file.now nodes rows columns.now }
    ensures { result ≡ circuits_stage (readable file.now) }
{
    match first_unsound(file, nodes, rows, columns) {
        Some(row) => Err(Refusal::BadCircuit(row as usize + 1)),
        None => Ok(()),
    }
}
