// 02, request 6: the shared tariffs of the zones of a side, and what they leave of the rest.
ghost use Rattle.std.specs.Prelude.{◌≡◌, ◌↔◌, ◌≤◌, All, IsTrue, nat_abs};
ghost use Rattle.tariffs.specs.Sides.{shared_zones, shares_fit, shared_from, shared_over, PartsFit, TermsFit};

use crate::price::price;
use crate::priced::{Charge, Priced, price_places};
use crate::wider::Terms;
use boundaries::{Shares, Split};
use meaning::{Kw, Metres, SharedFigures};
use rests::Rest;

// How many zones have a shared tariff.
pub fn shared_zones(in_force: bool, count: usize) -> usize
    ensures zones { result ≡ shared_zones in_force count }
    ensures few { result ≤ count }
{
    if in_force {
        return count;
    }
    0
}

// Whether each of these is at most that.
fn each_within(kw: &[Kw], most: Kw) -> bool
    ensures { IsTrue result ↔ All (λ x. x.0 ≤ most.0) kw.now }
{
    kw.iter().all(|x| x.0 <= most.0)
}

// Whether the kilowatts of each zone's shared tariff are some of those that pay.
pub fn shares_fit(shares: &Shares, count: usize, payers: Kw) -> bool
    requires { count ≤ 32 }
    ensures { result ≡ shares_fit shares.now count payers.0 }
{
    let kw = &shares.kw[..shared_zones(shares.in_force, count)];
    each_within(kw, payers)
}

// Step 9: what is said of a zone's shared metres; C is no part of them.
pub fn shared_line(metres: Metres, terms: Terms) -> SharedFigures
    requires { (nat_abs metres.0 ≤ 650000000) × TermsFit terms }
    ensures { result ≡ shared_from terms metres.0 }
{
    SharedFigures {
        metres,
        tariff: price(metres, terms.constant, terms.factor),
    }
}

// The same of zones 1 to count, their tariffs on the kilowatts of each taken off the rest.
pub fn shared_lines(
    parts: &[Split; 32],
    kw: &[Kw; 32],
    count: usize,
    terms: Terms,
    rest: Rest,
    payers: Kw,
) -> Priced<SharedFigures, 32>
    requires { PartsFit parts.now × (count ≤ 32) × TermsFit terms }
    ensures { result ≡ shared_over parts.now kw.now count terms rest payers.0 }
{
    price_places(steps::no_shared(), count, rest, payers, |k| {
        let line = shared_line(parts[k].shared, terms);
        Charge {
            line,
            tariff: line.tariff,
            kw: kw[k],
        }
    })
}
