// 02, request 3: a circuit's own factor, and the voltages at which it needs one.
ghost use Rattle.std.specs.Prelude.{◌≡◌};
ghost use Rattle.meaning.specs.File.{row_at, factor_at};
ghost use Rattle.meaning.specs.Tables.{new_voltage, sound_voltage, sound_factor};

use meaning::Section;

// The factor of a row. One of version 1 ends before it: what stands behind it is not looked at, and the factor is 0.
#[tactic(auto, unfolding(meaning::specs::File::factor_at))]
pub fn factor_at(file: &[u8], rows: Section, row: u32) -> usize
    ensures { result ≡ factor_at file.now rows.size (row_at rows row) }
{
    if rows.size < 48 {
        return 0;
    }
    fields::u32_at(file, fields::field_at(rows, row, 44))
}

// Whether the settings have no factor of this voltage, though there are circuits of it.
#[tactic(auto, unfolding(meaning::specs::Tables::new_voltage))]
fn new_voltage(voltage: usize) -> bool
    ensures { result ≡ new_voltage voltage }
{
    matches!(voltage, 320 | 525)
}

// Whether there are circuits of this voltage.
#[tactic(auto, unfolding(meaning::specs::Tables::sound_voltage))]
pub fn sound_voltage(voltage: usize) -> bool
    ensures { result ≡ sound_voltage voltage }
{
    matches!(voltage, 132 | 275 | 400) | new_voltage(voltage)
}

// Whether a circuit of this voltage may have this factor.
pub fn sound_factor(voltage: usize, factor: usize) -> bool
    ensures { result ≡ sound_factor voltage factor }
{
    ((factor == 0) | ((1000 <= factor) & (factor <= 30000)))
        & !(new_voltage(voltage) & (factor == 0))
}
