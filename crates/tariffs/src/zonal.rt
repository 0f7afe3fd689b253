// Steps 6 and 7: what the zones of the two sides of each background add up to, and all of them.
ghost use Rattle.std.specs.Prelude.{◌≡◌, ◌≤◌};
ghost use Rattle.zones.specs.Sums.{zone_sums};
ghost use Rattle.tariffs.specs.Sides.{zonal_from};
ghost use Rattle.meaning.specs.declared.Side.TheVariants.{Generation, Demand};
ghost use Rattle.tariffs.specs.Case.{at_peak, backgrounds_over, by_side, SettingsFit};

use crate::over::{Over, over_zones};
use meaning::{Edition, Kw, Settings, Side};
use zones::ZoneSums;

// Zones 1 to count of a side.
#[derive(Clone, Copy)]
pub struct Zonal {
    pub count: usize,
    pub sums: [ZoneSums; 32],
    pub over: Over,
}

// The zones of both sides.
#[derive(Clone, Copy)]
pub struct Sides {
    pub generation: Zonal,
    pub demand: Zonal,
}

impl Sides {
    // The zones of a side.
    pub fn of(&self, side: Side) -> &Zonal
        ensures { result.now ≡ by_side self.now.generation self.now.demand side }
    {
        match side {
            Side::Generation => &self.generation,
            Side::Demand => &self.demand,
        }
    }
}

// The sides of both backgrounds.
#[derive(Clone, Copy)]
pub struct Backgrounds {
    pub year_round: Sides,
    pub peak: Sides,
}

// How many of these peak has: none in edition 1.
pub fn at_peak(edition: Edition, count: usize) -> usize
    ensures { result ≡ at_peak edition count }
{
    match edition {
        Edition::First => 0,
        Edition::Second => count,
    }
}

// Of each node the zone on a side, the kilowatts that weigh, and those that pay.
#[derive(Clone, Copy)]
pub struct Nodes<'a> {
    pub zone: &'a [usize; 256],
    pub weight: &'a [Kw; 256],
    pub paying: &'a [Kw; 256],
}

// A side of that many nodes, by their wider potentials.
fn side_of(side: Side, count: usize, nodes: usize, of: &Nodes, wider: &[i64]) -> Zonal
    requires { count ≤ 32 }
    ensures { result ≡ zonal_from (zone_sums side nodes of.now.zone.now of.now.weight.now of.now.paying.now wider.now) count }
{
    let sums = zones::sums_by_zone(side, nodes, *of.zone, *of.weight, *of.paying, wider);
    Zonal {
        count,
        over: over_zones(&sums, count),
        sums,
    }
}

// Both sides: generation weighs by TEC, demand by demand, all of which pays.
fn sides_of(
    generation_zones: usize,
    demand_zones: usize,
    nodes: usize,
    generation: &Nodes,
    demand: &Nodes,
    wider: &[i64],
) -> Sides
    requires { (generation_zones ≤ 32) × (demand_zones ≤ 32) }
    ensures generation { result.generation ≡ zonal_from (zone_sums Generation nodes generation.now.zone.now generation.now.weight.now generation.now.paying.now wider.now) generation_zones }
    ensures demand { result.demand ≡ zonal_from (zone_sums Demand nodes demand.now.zone.now demand.now.weight.now demand.now.paying.now wider.now) demand_zones }
{
    Sides {
        generation: side_of(Side::Generation, generation_zones, nodes, generation, wider),
        demand: side_of(Side::Demand, demand_zones, nodes, demand, wider),
    }
}

// Both backgrounds. In peak other kilowatts pay.
pub fn backgrounds_of(
    settings: Settings,
    nodes: usize,
    generation: &Nodes,
    paying_at_peak: &[Kw; 256],
    demand: &Nodes,
    wider: &[i64],
    peak_wider: &[i64],
) -> Backgrounds
    requires { SettingsFit settings × (demand.now.paying.now ≡ demand.now.weight.now) }
    ensures { result ≡ backgrounds_over settings nodes generation.now.zone.now generation.now.weight.now generation.now.paying.now paying_at_peak.now demand.now.zone.now demand.now.weight.now wider.now peak_wider.now }
{
    let g = settings.generation_zones;
    let d = settings.demand_zones;
    let edition = settings.edition;
    let generation_at_peak = Nodes {
        paying: paying_at_peak,
        ..*generation
    };
    Backgrounds {
        year_round: sides_of(g, d, nodes, generation, demand, wider),
        peak: sides_of(
            at_peak(edition, g),
            at_peak(edition, d),
            at_peak(edition, nodes),
            &generation_at_peak,
            demand,
            peak_wider,
        ),
    }
}
