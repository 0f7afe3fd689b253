// 01, step 4: the expanded length of a circuit, by its own factor or by voltage.
ghost use Rattle.std.specs.Prelude.{◌≡◌};
ghost use Rattle.meaning.specs.File.{row_at, circuit_at};
ghost use Rattle.meaning.specs.Columns.{column};
ghost use Rattle.meaning.specs.Direction.{overhead_factor, cable_factor, own_or};
ghost use Rattle.circuit_table.specs.Lengths.{expanded_by, length_if_in_range};

use crate::factor::factor_at;
use meaning::{Section, Settings};

// The factors of overhead line and of cable: the row's own for both, or else those of its voltage. A voltage that no sound row without its own has takes those of 132 kV.
#[tactic(auto, unfolding(meaning::specs::Direction::own_or, meaning::specs::Direction::overhead_factor, meaning::specs::Direction::cable_factor))]
fn factors_for(settings: Settings, voltage: usize, own: usize) -> (usize, usize)
    ensures overhead { result.0 ≡ own_or own (overhead_factor settings voltage) }
    ensures cable { result.1 ≡ own_or own (cable_factor settings voltage) }
{
    if own != 0 {
        return (own, own);
    }
    match voltage {
        400 => (settings.overhead400, settings.cable400),
        275 => (settings.overhead275, settings.cable275),
        _ => (settings.overhead132, settings.cable132),
    }
}

// The expanded length in mm of two lengths by their factors; 0 where one is above its range.
#[tactic(auto, using(crate::proofs::LengthLaws::parts_low))]
fn expanded(overhead: usize, over: usize, cable: usize, under: usize) -> u64
    ensures { result ≡ expanded_by overhead over cable under }
{
    if (overhead <= 500_000) & (cable <= 500_000) & (over <= 30_000) & (under <= 30_000) {
        return (overhead * over + cable * under) as u64;
    }
    0
}

// The expanded length of a circuit.
fn length_at(file: &[u8], rows: Section, row: u32, settings: Settings) -> u64
    ensures { result ≡ length_if_in_range settings (circuit_at file.now rows.size (row_at rows row)) }
{
    let at = fields::row_at(rows, row);
    let voltage = fields::u32_at(file, at + 24);
    let overhead = fields::u32_at(file, at + 32);
    let cable = fields::u32_at(file, at + 36);
    let (over, under) = factors_for(settings, voltage, factor_at(file, rows, row));
    expanded(overhead, over, cable, under)
}

// Expanded lengths of the circuits; nothing past the last row, and no more than 512.
pub fn by_circuit(file: &[u8], rows: Section, settings: Settings) -> [u64; 512]
    ensures { result ≡ column 0 512 rows.count (λ i. length_if_in_range settings (circuit_at file.now rows.size (row_at rows i))) }
{
    let mut all = [0u64; 512];
    for row in 0..rows.count.min(512) {
        all[row as usize] = length_at(file, rows, row, settings);
    }
    all
}
