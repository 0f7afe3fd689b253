// TEC times load factor, added up plant type by plant type, in thousandths of a kilowatt.
ghost use Rattle.std.specs.Prelude.{◌≡◌};
ghost use Rattle.meaning.specs.Rows.{rows};
ghost use Rattle.zone_kw.specs.Load.{Room, with_type, loaded};

use crate::by_zone;
use crate::range::kept;
use meaning::{Kw, Plant};
use plants::Counted;
use station_table::by_node;

// The sums of the zones with a plant type more: nothing of one that does not pay.
fn with_type(sums: &[u64; 32], plant: Plant, kw: &[Kw; 32], factor: u64) -> [u64; 32]
    requires { Room sums.now kw.now }
    ensures { result ≡ with_type sums.now plant kw.now factor }
{
    let factor = kept(1000, factor);
    let mut all = [0; 32];
    for k in 0..32 {
        all[k] = sums[k] + plants::part(Counted::Paying, plant, kw[k]).0 * factor;
    }
    all
}

// Of all seven types, by zone.
pub fn thousandths(
    nodes: usize,
    zone: &[usize; 256],
    by_type: &[Kw; 1792],
    factors: &[u64; 7],
) -> [u64; 32]
    ensures { result ≡ rows 32 (loaded nodes zone.now by_type.now factors.now 7) }
{
    let mut sums = [0; 32];
    for t in 0..7 {
        let plant = plants::TYPES[t];
        let kw = by_zone(nodes, *zone, by_node(*by_type, Counted::Of(plant)));
        sums = with_type(&sums, plant, &kw, factors[t]);
    }
    sums
}
