// 5: the rows of the stations' table, their nodes resolved.
ghost use Rattle.std.specs.Prelude.{◌≡◌, ◌<◌};
ghost use Rattle.meaning.specs.File.{row_at, station_at};
ghost use Rattle.meaning.specs.Tables.{sound_station_row, stations_stage};
ghost use Rattle.layout.specs.Readable.{readable};
ghost use Rattle.meaning.specs.First.{FirstFound};
ghost use Rattle.station_table.specs.Told.{ToldNode, ToldStations, unsound_station};

use meaning::{Judgement, Refusal, Section};

// Whether a row, with the node that its name has, is sound by itself.
#[tactic(auto, using(meaning::proofs::Tables::known_place), unfolding(meaning::specs::Tables::sound_station_row, meaning::specs::File::station_at))]
fn sound_row(file: &[u8], rows: Section, row: u32, nodes: usize, node: usize) -> bool
    requires { ToldNode file.now (row_at rows row) nodes node }
    ensures { result ≡ sound_station_row (readable file.now).nodes (station_at file.now (row_at rows row)) }
{
    let at = fields::row_at(rows, row);
    names::name_formed(file, at)
        & names::name_formed(file, at + 12)
        & (node < nodes)
        & fields::between(file, at + 24, 1, 7)
        & fields::at_most(file, at + 28, 20000000)
}

// The lowest row that is not.
fn first_unsound(file: &[u8], nodes: usize, rows: Section, node: &[usize; 512]) -> Option<u32>
    requires { ToldStations file.now nodes rows node.now }
    ensures { FirstFound (unsound_station file.now rows) rows.count result }
{
    for row in 0..rows.count {
        if !sound_row(file, rows, row, nodes, node[row as usize]) {
            return Some(row);
        }
    }
    None
}

// The stage: the lowest row that is not, or whose identifier is seen earlier.
pub fn stage(file: &[u8], nodes: usize, rows: Section, node: &[usize; 512]) -> Judgement
    requires { ToldStations file.now nodes rows node.now }
    ensures { result ≡ stations_stage (readable file.now) }
{
    let count = rows.count as usize;
    let repeated = names::repeated(file, rows);
    match first_unsound(file, nodes, rows, node) {
        Some(row) if (row as usize) < repeated => Err(Refusal::BadStation(row as usize + 1)),
        _ if repeated < count => Err(Refusal::BadStation(repeated + 1)),
        _ => Ok(()),
    }
}
