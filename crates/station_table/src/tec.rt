// 01, step 1: TEC added up by node and plant type, and what counts of it.
ghost use Rattle.std.specs.Prelude.{◌≡◌, ℕ, ◌≤◌, ◌<◌, ◌^◌};
ghost use Rattle.std.specs.Option.{MatchOption};
ghost use Rattle.meaning.specs.Rows.{rows};
ghost use Rattle.meaning.specs.Columns.{kilowatts, kw_at};
ghost use Rattle.station_table.specs.Tec.{cell_of, cell_tec, possible_kw, Counts, types_tec};

use crate::StationColumns;
use meaning::{Kw, Plant};
use plants::Counted;

// The cell of a node and a plant type, where there are such.
fn cell_of(nodes: usize, node: usize, plant: u64) -> Option<usize>
    requires { nodes ≤ 256 }
    ensures { MatchOption result (cell_of nodes node plant ≡ 1792) (λ cell. (cell ≡ cell_of nodes node plant) × (cell < 1792)) }
{
    if (node < nodes) & ((1 <= plant) & (plant <= 7)) {
        return Some(7 * node + plant as usize - 1);
    }
    None
}

// TEC by node and plant type, in one pass over the stations.
pub fn by_type(stations: &StationColumns, nodes: usize, count: usize) -> [Kw; 1792]
    requires { (nodes ≤ 256) × (count ≤ 512) × ((k : ℕ) → kw_at stations.now.tec k < 2 ^ 32) }
    ensures { result ≡ rows 1792 (λ c. kilowatts (cell_tec nodes stations.now.node stations.now.plant stations.now.tec count c)) }
{
    let mut sums = [Kw(0); 1792];
    for k in 0..count {
        if let Some(cell) = cell_of(nodes, stations.node[k], stations.plant[k]) {
            sums[cell].0 += stations.tec[k].0;
        }
    }
    sums
}

// A cell's TEC, as far as a file can have it.
#[tactic(auto, unfolding(crate::specs::Tec::possible_kw))]
fn possible(tec: Kw) -> Kw
    ensures { result.0 ≡ possible_kw tec.0 }
{
    if tec.0 <= 2199023255040 {
        return tec;
    }
    Kw(0)
}

// What counts of the TEC of a plant type at a node.
fn part(counted: Counted, plant: Plant, tec: Kw) -> Kw
    ensures { Counts counted plant tec.0 result.0 }
{
    plants::part(counted, plant, possible(tec))
}

// And of all its types.
pub fn of_node(counted: Counted, by_type: &[Kw; 1792], node: usize) -> Kw
    requires { node < 256 }
    ensures { result ≡ kilowatts (types_tec counted by_type.now 7 node) }
{
    // Copied once: read in the loop, the constant is made anew for each type, and what is fixed or varies in edition 2 takes three times as long.
    let types = plants::TYPES;
    let mut sum = 0;
    for t in 0..7 {
        sum += part(counted, types[t], by_type[7 * node + t]).0;
    }
    Kw(sum)
}
