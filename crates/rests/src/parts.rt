// One tariff taken off.
ghost use Rattle.std.specs.Prelude.{◌≡◌, pos, ◌-ℤ◌, ◌*ℤ◌};
ghost use Rattle.rests.specs.Rests.{value_of, rest_over, in_range, InRange, Divides};

use crate::Rest;

impl Rest {
    // z micro-pounds over d kilowatts.
    pub(crate) fn of(z: i64, d: u64) -> Rest
        requires { Divides z d }
        ensures { result ≡ rest_over z d }
    {
        let each = integers::floor_div(z, d);
        Rest {
            each,
            over: (z - each * (d as i64)) as u64,
        }
    }

    // Whether this is a rest over kilowatts that can be, a tariff can be, and its kilowatts are some of those.
    pub(crate) fn takes(self, payers: u64, tariff: i64, kw: u64) -> bool
        ensures { result ≡ in_range self.each self.over payers tariff kw }
    {
        (1 <= payers)
            & (payers <= 100000000)
            & (self.over < payers)
            & (kw <= payers)
            & (integers::magnitude(self.each) <= 9000000000000000000)
            & (integers::magnitude(tariff) <= 1000000000000)
    }

    // The tariff is taken off in two steps: its millions, whose kilowatts make whole residuals and a part of one, and what is below a million.
    pub(crate) fn taken(self, payers: u64, tariff: i64, kw: u64) -> Rest
        requires { InRange self.each self.over payers tariff kw }
        ensures { result ≡ rest_over (value_of self.each self.over payers -ℤ tariff *ℤ pos kw) payers }
    {
        let Rest { each, over } = self;
        let millions = Rest::of(tariff, 1000000);
        let high = millions.each;
        let low = millions.over as i64;
        let share = Rest::of(high * (kw as i64), payers);
        let whole = share.each;
        let part = share.over as i64;
        let last = Rest::of(over as i64 - part * 1000000 - low * (kw as i64), payers);
        Rest {
            each: each - whole * 1000000 + last.each,
            over: last.over,
        }
    }
}
