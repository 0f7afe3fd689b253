// Step 8: what the zones of a side come to, and C.
ghost use Rattle.std.specs.Prelude.{◌≡◌, ◌≤◌};
ghost use Rattle.zones.specs.Sums.{SumsFit};
ghost use Rattle.meaning.specs.Charging.{centre};
ghost use Rattle.tariffs.specs.Sides.{metres_from, with_zone, over_from, AllFit, OverFits, Ready};

use meaning::{Kw, Metres};
use zones::ZoneSums;

// Over the zones of a side, metres times the kilowatts that pay, and those kilowatts.
#[derive(Clone, Copy)]
pub struct Over {
    pub metres: i64,
    pub total: Kw,
}

// Step 7: zonal metres.
pub fn metres_of(zone: ZoneSums) -> Metres
    ensures { result.0 ≡ metres_from zone }
{
    steps::average(zone.weighed, zone.weight)
}

// What zones come to with one zone more.
pub fn with_zone(over: Over, zone: ZoneSums) -> Over
    requires { OverFits over × SumsFit zone }
    ensures { result ≡ with_zone over zone }
{
    let paying = zone.paying.0;
    Over {
        metres: over.metres + metres_of(zone).0 * (paying as i64),
        total: Kw(over.total.0 + paying),
    }
}

// What zones 1 to count come to.
pub fn over_zones(sums: &[ZoneSums; 32], count: usize) -> Over
    requires { AllFit sums.now × (count ≤ 32) }
    ensures { result ≡ over_from sums.now count }
{
    let mut over = Over {
        metres: 0,
        total: Kw(0),
    };
    for k in 0..count {
        over = with_zone(over, sums[k]);
    }
    over
}

// C.
pub fn c_of(p: u64, generation: Over, demand: Over) -> Metres
    requires { (p ≤ 1000) × Ready generation × Ready demand }
    ensures { result.0 ≡ centre p generation.metres demand.metres generation.total.0 demand.total.0 }
{
    let q = 1000 - p;
    let above = (q as i64) * demand.metres - (p as i64) * generation.metres;
    let below = p * generation.total.0 + q * demand.total.0;
    Metres(integers::nearest(above, below))
}
