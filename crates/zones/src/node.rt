// One node: what it adds to its zone.
ghost use Rattle.std.specs.Prelude.{◌≡◌, ◌≤◌, pos, nat_abs, ◌*ℤ◌};
ghost use Rattle.zones.specs.Sums.{no_sums, in_ranges, part_of, plus, AddsFit, SumsFit};

use crate::ZoneSums;
use meaning::{Kw, Metres, Side};

// What a node adds, and to the sums of which zone, from 0.
#[derive(Clone, Copy)]
pub struct Part {
    pub slot: usize,
    pub adds: ZoneSums,
}

// The sums of a zone without nodes.
pub fn nothing() -> ZoneSums
    ensures { result ≡ no_sums }
{
    ZoneSums {
        weight: Kw(0),
        weighed: 0,
        paying: Kw(0),
    }
}

// Whether a node's numbers are in 01's ranges.
pub fn in_ranges(zone: usize, weight: Kw, paying: Kw, distance: Metres) -> bool
    ensures { result ≡ in_ranges zone weight.0 paying.0 distance.0 }
{
    (1 <= zone)
        & (zone <= 32)
        & (weight.0 <= 100000000)
        & (paying.0 <= 100000000)
        & numbers::within(distance.0, 10000000)
}

// A distance times kilowatts.
pub fn times(distance: Metres, kw: Kw) -> i64
    requires { (nat_abs distance.0 ≤ 10000000) × (kw.0 ≤ 100000000) }
    ensures { result ≡ distance.0 *ℤ pos kw.0 }
{
    distance.0 * (kw.0 as i64)
}

// What a node adds to its zone: nothing where a number is out of range.
pub fn part_of(side: Side, zone: usize, weight: Kw, paying: Kw, potential: i64) -> Part
    ensures { result ≡ part_of side zone weight paying potential }
{
    let distance = steps::distance(side, potential);
    if in_ranges(zone, weight, paying, distance) {
        return Part {
            slot: zone - 1,
            adds: ZoneSums {
                weight,
                weighed: times(distance, weight),
                paying,
            },
        };
    }
    Part {
        slot: 0,
        adds: nothing(),
    }
}

// The sums of a zone with what one node more adds.
pub fn plus(sums: ZoneSums, adds: ZoneSums) -> ZoneSums
    requires { SumsFit sums × AddsFit adds }
    ensures { result ≡ plus sums adds }
{
    let weight = sums.weight.0 + adds.weight.0;
    let weighed = sums.weighed + adds.weighed;
    let paying = sums.paying.0 + adds.paying.0;
    ZoneSums {
        weight: Kw(weight),
        weighed,
        paying: Kw(paying),
    }
}
