// The arithmetic over circuits that all systems share: 01, steps 2, 4 and 5, of a case in columns and runs of any numbers.
#![tactic(auto)]

mod circuit;
mod marks;
mod reading;

ghost use Rattle.std.specs.Prelude.{◌≡◌};
ghost use Rattle.flows.specs.Flows.{net_flows, misses_low, headings_of, offsets_of};

use meaning::{Background, Counting, Edition, System};
use numbers::Heading;

// A case in columns: its edition, the count of nodes, the reference from 0, numbers of each circuit, and the supply of each node in the two base systems.
// In edition 1 there is one, and peak's supply is 0.
#[derive(Clone, Copy)]
pub struct Case {
    pub edition: Edition,
    pub nodes: usize,
    pub reference: usize,
    pub first: [usize; 512],
    pub second: [usize; 512],
    pub x: [u64; 512],
    pub length: [u64; 512],
    pub mark: [u64; 512],
    pub supply: [i64; 256],
    pub peak_supply: [i64; 256],
}

// 01, 9: flow out less flow in at each node, in one walk over the circuits.
pub fn net_flows<'a>(
    n: usize,
    first: &'a [usize; 512],
    second: &'a [usize; 512],
    run: &[i64],
) -> [i64; 256]
    ensures { result ≡ net_flows n first.now second.now run.now }
{
    let m = reading::circuits_in(n, run.len());
    let mut net = [0; 256];
    for c in 0..m {
        let flow = reading::carried(run[n + c]);
        circuit::add_at(&mut net, first[c], flow);
        circuit::add_at(&mut net, second[c], -flow);
    }
    net
}

// 01, 10: whether the misses sum to at most 100,000,000. It stops above that, so that the sum never wraps.
pub fn misses_low<'a>(
    n: usize,
    first: &'a [usize; 512],
    second: &'a [usize; 512],
    x: &'a [u64; 512],
    offset: &[i64; 512],
    run: &[i64],
) -> bool
    ensures { result ≡ misses_low n first.now second.now x.now offset.now run.now }
{
    let m = reading::circuits_in(n, run.len());
    let mut total = 0;
    for c in 0..m {
        let p = reading::number_at(run, first[c]);
        let q = reading::number_at(run, second[c]);
        total += circuit::miss_size(p, q, x[c], run[n + c], offset[c]);
        if total > 100000000 {
            return false;
        }
    }
    true
}

// 02, request 5: the background that each circuit counts for, and its own base flow; no heading past the circuits that the base run has a flow for.
pub fn headings(
    edition: Edition,
    n: usize,
    mark: &[u64; 512],
    base: &[i64],
    peak_base: &[i64],
) -> [Heading; 512]
    ensures { result ≡ headings_of edition n mark.now base.now peak_base.now }
{
    let m = reading::circuits_in(n, base.len());
    let none = Heading {
        counting: Counting::For(Background::YearRound),
        flow: 0,
    };
    let mut all = [none; 512];
    for c in 0..m {
        let peak = reading::number_at(peak_base, n + c);
        all[c] = numbers::heading_of(edition, mark[c], base[n + c], peak);
    }
    all
}

// 01, step 5: the offset of each circuit in a system, by its heading.
pub fn offsets<'a>(
    system: System,
    length: &'a [u64; 512],
    mark: &'a [u64; 512],
    headings: [Heading; 512],
) -> [i64; 512]
    ensures { result ≡ offsets_of system length.now mark.now headings }
{
    let mut offset = [0; 512];
    for c in 0..512 {
        offset[c] = marks::offset_of(system, length[c], mark[c], headings[c]);
    }
    offset
}
