// 02, request 6: a case's kilowatts by generation zone, as a share file needs them: what counts of TEC, and what pays the shared tariff.
#![tactic(auto)]

mod load;
mod range;

ghost use Rattle.std.specs.Prelude.{◌≡◌};
ghost use Rattle.zone_kw.specs.ByZone.{by_zone};
ghost use Rattle.zone_kw.specs.Load.{shared_kw};

use meaning::Kw;

// What the nodes of zones 1 to 32 add up to. A node of another zone, and one with more than 10^8 kW, adds nothing.
pub fn by_zone(nodes: usize, zone: [usize; 256], kw: [Kw; 256]) -> [Kw; 32]
    ensures { result ≡ by_zone nodes zone kw }
{
    let mut sums = [Kw(0); 32];
    for v in 0..nodes.min(256) {
        if let Some(slot) = range::slot_of(zone[v]) {
            sums[slot].0 += range::kept(100000000, kw[v].0);
        }
    }
    sums
}

// The kilowatts of each zone that pay its shared tariff, from TEC by node and plant type and the load factors of types 1 to 7 in thousandths:
// over the types that pay, TEC times load factor, rounded down once. A load factor above 1,000 counts as none.
pub fn shared_kw(
    nodes: usize,
    zone: [usize; 256],
    by_type: [Kw; 1792],
    factors: [u64; 7],
) -> [Kw; 32]
    ensures { result ≡ shared_kw nodes zone by_type factors }
{
    load::thousandths(nodes, &zone, &by_type, &factors).map(|load| Kw(load / 1000))
}
