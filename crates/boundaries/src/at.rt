// One zone's number from an array; nothing of what is no zone or out of range.
ghost use Rattle.std.specs.Prelude.{◌≡◌};
ghost use Rattle.boundaries.specs.Boundaries.{up_to, close, kept, near};

use meaning::{Kw, Metres};

// Kilowatts up to 100,000,000.
fn up_to(x: u64) -> u64
    ensures { result ≡ up_to x }
{
    if x <= 100000000 {
        return x;
    }
    0
}

// Metres up to 10,000,000.
fn close(m: i64) -> i64
    ensures { result ≡ close m }
{
    if integers::magnitude(m) <= 10000000 {
        return m;
    }
    0
}

// A zone's kilowatts.
pub fn kw_at(kw: &[Kw; 32], z: usize) -> u64
    ensures { result ≡ kept kw.now z }
{
    up_to(chains::of_zone(kw, z, Kw(0)).0)
}

// Its metres.
pub fn metres_at(metres: &[Metres; 32], z: usize) -> i64
    ensures { result ≡ near metres.now z }
{
    close(chains::of_zone(metres, z, Metres(0)).0)
}
