// The stages in 01's order: what stops first is answered.
ghost use Rattle.std.specs.Prelude.{◌≡◌, ◌&&◌, ◌-◌, eqb};
ghost use Rattle.meaning.specs.Editions.{by_edition};
ghost use Rattle.tables.specs.Reads.{totals_of, chargeable_of, scaling_of, background_in, scaling_in, grid_in};

use crate::Opened;
use answers::or_else;
use meaning::{Background, Edition, Judgement, Kw, Refusal};
use plants::Counted;
use station_table::by_node;

// Whether the runs of edition 1, which are year round's and the local one, have this length.
pub fn year_round_runs(count: usize, base: usize, wider: usize, local: usize) -> bool
    ensures { result ≡ (eqb base count && eqb wider count && eqb local count) }
{
    (base == count) & (wider == count) & (local == count)
}

// Whether peak's have this one.
pub fn peak_runs(count: usize, base: usize, wider: usize) -> bool
    ensures { result ≡ (eqb base count && eqb wider count) }
{
    (base == count) & (wider == count)
}

// The length of peak's runs: edition 1 has none.
pub fn peak_count(edition: Edition, count: usize) -> usize
    ensures { result ≡ by_edition 0 count edition }
{
    match edition {
        Edition::First => 0,
        Edition::Second => count,
    }
}

// A row's number counted from 0; 0 where there is no row.
pub fn from_zero(row: usize) -> usize
    ensures { result ≡ row - 1 }
{
    if row < 1 {
        return 0;
    }
    row - 1
}

// 7: a total out of its range, or less TEC than demand.
pub fn totals_stage(n: usize, demand: [Kw; 256], tec: [Kw; 256]) -> Judgement
    ensures { result ≡ totals_of n demand tec }
{
    if totals::sound(totals::total(n, demand), totals::total(n, tec)) {
        return Ok(());
    }
    Err(Refusal::BadTotal)
}

// 13: no TEC that pays.
pub fn chargeable_stage(n: usize, paying: [Kw; 256]) -> Judgement
    ensures { result ≡ chargeable_of n paying }
{
    if totals::chargeable(totals::total(n, paying)) {
        return Ok(());
    }
    Err(Refusal::NoChargeableTec)
}

// 14 of the columns of a background: fixed generation above demand, or variable generation too small.
fn scaling_stage(n: usize, fixed: [Kw; 256], variable: [Kw; 256], demand: [Kw; 256]) -> Judgement
    ensures { result ≡ scaling_of n fixed variable demand }
{
    let fixed = totals::total(n, fixed).0;
    let variable = totals::total(n, variable).0;
    let demand = totals::total(n, demand).0;
    if (fixed <= demand) & (demand <= fixed + variable) {
        return Ok(());
    }
    Err(Refusal::Unscalable)
}

// 14 in a background, from TEC by node and plant type.
fn background_stage(
    edition: Edition,
    background: Background,
    n: usize,
    by_type: [Kw; 1792],
    demand: [Kw; 256],
) -> Judgement
    ensures { result ≡ background_in edition background n by_type demand }
{
    let fixed = by_node(by_type, Counted::Fixed(edition, background));
    let variable = by_node(by_type, Counted::Variable(edition, background));
    scaling_stage(n, fixed, variable, demand)
}

// 14 of both backgrounds, which edition 2 alone asks.
fn scaling(edition: Edition, n: usize, by_type: [Kw; 1792], demand: [Kw; 256]) -> Judgement
    ensures { result ≡ scaling_in edition n by_type demand }
{
    match edition {
        Edition::First => Ok(()),
        Edition::Second => {
            let year_round = background_stage(edition, Background::YearRound, n, by_type, demand);
            let peak = background_stage(edition, Background::Peak, n, by_type, demand);
            or_else(year_round, peak)
        }
    }
}

// 6, 7, 13 and 14. Each is judged, and the first that stops the case is answered: no `?`, so that a program which asks them in another order differs in nothing but the order.
pub fn grid_stage(all: &Opened) -> Judgement
    ensures { result ≡ grid_in all.now }
{
    let n = all.counts.nodes;
    let demand = all.nodes.demand;
    let reference = from_zero(all.settings.reference);
    let circuits = all.counts.circuits;
    let reached = walk::stage(
        n,
        reference,
        circuits,
        &all.circuits.first,
        &all.circuits.second,
    );
    let tec = by_node(all.by_type, Counted::All);
    let totalled = totals_stage(n, demand, tec);
    let paying = by_node(all.by_type, Counted::Paying);
    let charged = chargeable_stage(n, paying);
    let asked = or_else(reached, or_else(totalled, charged));
    let scaled = scaling(all.settings.edition, n, all.by_type, demand);
    or_else(asked, scaled)
}
