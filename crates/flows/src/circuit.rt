// What one circuit adds: to the net flow of an end, and to the misses.
ghost use Rattle.std.specs.Prelude.{◌≡◌};
ghost use Rattle.flows.specs.Turns.{added, Addable, miss_size};

// z more at node v; an end past the last row is no node.
pub fn add_at(net: &mut [i64; 256], v: usize, z: i64)
    requires { Addable net.old z }
    ensures { net.new ≡ added net.old v z }
{
    if v < 256 {
        net[v] += z;
    }
}

// The magnitude of a miss, more than is allowed where a number is out of its range. In range, drops come to 4 x 10^18, x times flow to 10^18, the offset to 3 x 10^16: nothing wraps.
pub fn miss_size(p: i64, q: i64, x: u64, flow: i64, offset: i64) -> u64
    ensures { result ≡ miss_size p q x flow offset }
{
    if numbers::within(p, 2000000000000000000)
        & numbers::within(q, 2000000000000000000)
        & (x <= 10000)
        & numbers::within(flow, 100000000000000)
        & numbers::within(offset, 30000000000000000)
    {
        return integers::magnitude(p - q - x as i64 * flow - offset);
    }
    100000001
}
