// Steps 8 to 10 of the zones of a side in a background: metres after C, tariffs, and what they leave of the rest.
ghost use Rattle.std.specs.Prelude.{◌≡◌, ◌≤◌, nat_abs};
ghost use Rattle.meaning.specs.Charging.{with_c};
ghost use Rattle.tariffs.specs.Sides.{wider_from, wider_over, MetresFit, TermsFit};

use crate::price::price;
use crate::priced::{Charge, Priced, price_places};
use crate::zonal::Zonal;
use meaning::{Kw, Metres, Side, WiderFigures};
use rests::Rest;

// What prices the zones of a side: C, expansion constant and security factor.
#[derive(Clone, Copy)]
pub struct Terms {
    pub side: Side,
    pub c: Metres,
    pub constant: usize,
    pub factor: usize,
}

// A side in a background, and what prices its zones.
#[derive(Clone, Copy)]
pub struct Zoned<'a> {
    pub zonal: &'a Zonal,
    pub terms: Terms,
}

// Step 8: metres after C.
pub fn after_c(metres: Metres, terms: Terms) -> Metres
    requires { (nat_abs metres.0 ≤ 650000000) × TermsFit terms }
    ensures { result.0 ≡ with_c terms.side terms.c.0 metres.0 }
{
    match terms.side {
        Side::Generation => Metres(metres.0 + terms.c.0),
        Side::Demand => Metres(metres.0 - terms.c.0),
    }
}

// Steps 8 and 9: what the background says of a zone.
pub fn wider_line(metres: Metres, terms: Terms) -> WiderFigures
    requires { (nat_abs metres.0 ≤ 650000000) × TermsFit terms }
    ensures { result ≡ wider_from terms metres.0 }
{
    let after_c = after_c(metres, terms);
    WiderFigures {
        metres,
        after_c,
        tariff: price(after_c, terms.constant, terms.factor),
    }
}

// The same of all its zones, their tariffs taken off the rest.
pub fn wider_lines(
    metres: &[Metres; 32],
    zoned: &Zoned,
    rest: Rest,
    payers: Kw,
) -> Priced<WiderFigures, 32>
    requires { MetresFit metres.now × (zoned.now.zonal.now.count ≤ 32) × TermsFit zoned.now.terms }
    ensures { result ≡ wider_over metres.now zoned.now.zonal.now.sums zoned.now.zonal.now.count zoned.now.terms rest payers.0 }
{
    let sums = &zoned.zonal.sums;
    price_places(steps::no_wider(), zoned.zonal.count, rest, payers, |k| {
        let line = wider_line(metres[k], zoned.terms);
        Charge {
            line,
            tariff: line.tariff,
            kw: sums[k].paying,
        }
    })
}
