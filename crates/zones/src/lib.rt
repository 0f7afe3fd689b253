// 01, steps 6 and 7 of a side: what the nodes of each zone add up to. A node with a number out of 01's ranges adds nothing.
#![tactic(auto)]

mod node;

ghost use Rattle.std.specs.Prelude.{◌≡◌};
ghost use Rattle.zones.specs.Sums.{nodes_in, zone_sums};

use meaning::{Kw, Side};

// Step 7: what a zone's nodes add up to: kilowatts that weigh, distances times those, and kilowatts that pay.
#[derive(Clone, Copy)]
pub struct ZoneSums {
    pub weight: Kw,
    pub weighed: i64,
    pub paying: Kw,
}

// The nodes of a case whose run has a potential for each: all, or none where it has not, or where they are more than 256.
pub fn nodes_in(nodes: usize, run: usize) -> usize
    ensures { result ≡ nodes_in nodes run }
{
    if (nodes <= 256) & (nodes <= run) {
        return nodes;
    }
    0
}

// The sums of zones 1 to 32, by each node's zone, kilowatts that weigh, kilowatts that pay and wider potential.
pub fn sums_by_zone(
    side: Side,
    nodes: usize,
    zone: [usize; 256],
    weight: [Kw; 256],
    paying: [Kw; 256],
    wider: &[i64],
) -> [ZoneSums; 32]
    ensures { result ≡ zone_sums side nodes zone weight paying wider.now }
{
    let count = nodes_in(nodes, wider.len());
    let mut all = [node::nothing(); 32];
    for v in 0..count {
        let part = node::part_of(side, zone[v], weight[v], paying[v], wider[v]);
        let k = part.slot;
        all[k] = node::plus(all[k], part.adds);
    }
    all
}
