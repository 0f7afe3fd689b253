// 01, step 10: what is left of a target, held as a residual for each kilowatt that pays and a remainder below their number. A tariff on some of them is taken off
// without ever writing down the product, so no income has to fit 64 bits, and at the end the residual and the remainder stand there.
#![tactic(auto)]

mod parts;

ghost use Rattle.std.specs.Prelude.{◌≡◌};
ghost use Rattle.rests.specs.Rests.{start_of, less_of};

use meaning::{Kw, MicroPerKw};

// `each` micro-pounds for every kilowatt that pays, and `over` micro-pounds besides.
#[derive(Clone, Copy)]
pub struct Rest {
    pub each: i64,
    pub over: u64,
}

// A target of magnitude up to 10^18 over 1 to 10^8 kilowatts; nothing where a number is out of its range.
pub fn start(target: i64, payers: Kw) -> Rest
    ensures { result ≡ start_of target payers.0 }
{
    let k = payers.0;
    if (1 <= k) & (k <= 100000000) & (integers::magnitude(target) <= 1000000000000000000) {
        return Rest::of(target, k);
    }
    Rest { each: 0, over: 0 }
}

// The rest, less a tariff on some of the kilowatts that pay; unchanged where a number is out of its range.
pub fn less(rest: Rest, payers: Kw, tariff: MicroPerKw, kw: Kw) -> Rest
    ensures { result ≡ less_of rest payers.0 tariff.0 kw.0 }
{
    if rest.takes(payers.0, tariff.0, kw.0) {
        return rest.taken(payers.0, tariff.0, kw.0);
    }
    rest
}
