// 3: the rows of the nodes' table.
ghost use Rattle.std.specs.Prelude.{◌≡◌, ◌<◌};
ghost use Rattle.meaning.specs.File.{row_at, node_at};
ghost use Rattle.meaning.specs.First.{FirstFound};
ghost use Rattle.meaning.specs.Tables.{sound_node_row, nodes_stage};
ghost use Rattle.layout.specs.Readable.{readable, section_in};
ghost use Rattle.node_table.specs.Told.{unsound_node};

use meaning::{Judgement, Refusal, Section, Settings};

// Whether a row is sound by itself.
#[tactic(auto, unfolding(meaning::specs::Tables::sound_node_row, meaning::specs::File::node_at))]
fn sound_row(file: &[u8], rows: Section, row: u32, settings: Settings) -> bool
    ensures { result ≡ sound_node_row settings (node_at file.now (row_at rows row)) }
{
    let at = fields::row_at(rows, row);
    names::name_formed(file, at)
        & fields::between(file, at + 12, 1, settings.generation_zones)
        & fields::between(file, at + 16, 1, settings.demand_zones)
        & fields::at_most(file, at + 20, 20000000)
}

// The lowest row that is not.
fn first_unsound(file: &[u8], rows: Section, settings: Settings) -> Option<u32>
    ensures { FirstFound (unsound_node settings file.now rows) rows.count result }
{
    (0..rows.count).find(|row| !sound_row(file, rows, *row, settings))
}

// The stage: the lowest row that is not, or whose name is seen earlier.
pub fn stage(file: &[u8], rows: Section, settings: Settings) -> Judgement
    requires { (rows ≡ section_in file.now 1) × (settings ≡ (readable file.now).settings) }
    ensures { result ≡ nodes_stage (readable file.now) }
{
    let count = rows.count as usize;
    let repeated = names::repeated(file, rows);
    match first_unsound(file, rows, settings) {
        Some(row) if (row as usize) < repeated => Err(Refusal::BadNode(row as usize + 1)),
        _ if repeated < count => Err(Refusal::BadNode(repeated + 1)),
        _ => Ok(()),
    }
}
