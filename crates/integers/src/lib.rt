// Magnitudes, and the two divisions of document 01, of every z and d. Definitions are in specs/Numbers.antt, laws of whole numbers in proofs/.
#![tactic(auto)]

ghost use Rattle.std.specs.Prelude.{◌≡◌, nat_abs};
ghost use Rattle.integers.specs.Numbers.{floor_div, rounded as rounded_of, nearest as nearest_of};

// The magnitude of every number: -2^63 has one too.
pub fn magnitude(z: i64) -> u64
    ensures { result ≡ nat_abs z }
{
    z.unsigned_abs()
}

// z / d rounded down, also below zero. Where d is 0, or above every magnitude, only the sign of z is left.
pub fn floor_div(z: i64, d: u64) -> i64
    ensures { result ≡ floor_div z d }
{
    match i64::try_from(d) {
        Ok(d) if d > 0 => z.div_euclid(d),
        _ => -i64::from(z < 0),
    }
}

// a / d to the nearest, a half going up. What is left over is held to what it lacks of d: nothing is doubled, so nothing wraps.
fn rounded(a: u64, d: u64) -> u64
    ensures { result ≡ rounded_of a d }
{
    if d == 0 {
        return 0;
    }
    let left = a % d;
    if left < d - left { a / d } else { a / d + 1 }
}

// z / d to the nearest, a half going away from zero: the magnitude rounded, with its sign put back. -2^63 has a magnitude, and fits again.
pub fn nearest(z: i64, d: u64) -> i64
    ensures { result ≡ nearest_of z d }
{
    let whole = rounded(magnitude(z), d).cast_signed();
    if z < 0 { whole.wrapping_neg() } else { whole }
}
