// 02, request 6: year round's zonal metres split along the chains into shared and not-shared metres. A number out of its range counts as nothing.
#![tactic(auto)]

mod at;
mod part;
mod sums;

ghost use Rattle.std.specs.Prelude.{◌≡◌};
ghost use Rattle.boundaries.specs.Boundaries.{no_shares, splits};

use meaning::{Kw, Metres};
use part::Zones;

// What a share file says of a case: whether it is in force; and of each zone the next one inward, low carbon and carbon TEC, and the kilowatts that pay its shared tariff.
#[derive(Clone, Copy)]
pub struct Shares {
    pub in_force: bool,
    pub next: [usize; 32],
    pub low: [Kw; 32],
    pub carbon: [Kw; 32],
    pub kw: [Kw; 32],
}

impl Shares {
    // Of a file that is not in force, and of a side that shares nothing.
    pub fn none() -> Shares
        ensures { result ≡ no_shares }
    {
        let nothing = [Kw(0); 32];
        Shares {
            in_force: false,
            next: [0; 32],
            low: nothing,
            carbon: nothing,
            kw: nothing,
        }
    }
}

// A zone's metres in two parts.
#[derive(Clone, Copy)]
pub struct Split {
    pub shared: Metres,
    pub not_shared: Metres,
}

// Shared and not-shared metres of zones 1 to 32.
pub fn split_metres(shares: Shares, zones: usize, metres: [Metres; 32]) -> [Split; 32]
    ensures { result ≡ splits shares zones metres }
{
    let zones = Zones {
        count: sums::zones_in(shares.in_force, zones),
        next: &shares.next,
        low: &shares.low,
        carbon: &shares.carbon,
        metres: &metres,
    };
    let parts = zones.parts();
    let none = Metres(0);
    let nothing = Split {
        shared: none,
        not_shared: none,
    };
    let mut all = [nothing; 32];
    for i in 0..32 {
        all[i] = zones.one(&parts, i + 1);
    }
    all
}
