// Step 9: the price of a distance.
ghost use Rattle.std.specs.Prelude.{◌≡◌};
ghost use Rattle.meaning.specs.Charging.{tariff as tariff_of};
ghost use Rattle.tariffs.specs.Sides.{Prices};

use meaning::{Metres, MicroPerKw};

// The price of a distance, by expansion constant and security factor.
pub fn price(metres: Metres, constant: usize, factor: usize) -> MicroPerKw
    requires { Prices metres.0 constant factor }
    ensures { result.0 ≡ tariff_of metres.0 constant factor }
{
    let product = metres.0 * (constant as i64) * (factor as i64);
    MicroPerKw(integers::nearest(product, 100_000))
}
