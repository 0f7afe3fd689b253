// Step 9: a line for each place, and what the places' tariffs leave of a rest.
ghost use Rattle.std.specs.Prelude.{◌≤◌, ◌<◌, ℕ};
ghost use Rattle.tariffs.specs.Pricing.{PricedBy};

use meaning::{Kw, MicroPerKw};
use rests::Rest;

// The lines of places, and the rest without what their tariffs bring in.
#[derive(Clone, Copy)]
pub struct Priced<T, const N: usize> {
    pub lines: [T; N],
    pub rest: Rest,
}

// A place's line, and its tariff on the kilowatts that pay it.
#[derive(Clone, Copy)]
pub struct Charge<T> {
    pub line: T,
    pub tariff: MicroPerKw,
    pub kw: Kw,
}

// Places 1 to count, and nothing past them.
pub fn price_places<T: Copy, const N: usize, F: Fn(usize) -> Charge<T>>(
    nothing: T,
    count: usize,
    rest: Rest,
    payers: Kw,
    charge: F,
) -> Priced<T, N>
    requires few { count ≤ N }
    requires callable { (k : ℕ) → k < count → F.pre charge k }
    ensures { PricedBy (F.post charge) nothing N count rest payers.0 result.lines result.rest }
{
    let mut lines = [nothing; N];
    let mut left = rest;
    for k in 0..count {
        let place = charge(k);
        lines[k] = place.line;
        left = rests::less(left, payers, place.tariff, place.kw);
    }
    Priced { lines, rest: left }
}
