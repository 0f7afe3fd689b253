// 01, steps 6 to 10 of a case, from its columns: C, tariffs, residuals and remainders. Every input has its answer: no figures where a setting or a total is out of range.
#![tactic(auto)]

mod case;
mod lines;
mod metres;
mod nodes;
mod over;
mod price;
mod priced;
mod shared;
mod side;
mod wider;
mod zonal;

ghost use Rattle.std.specs.Prelude.{◌≡◌};
ghost use Rattle.tariffs.specs.Case.{figures_over};

use boundaries::Shares;
use meaning::{Figures, Kw, Settings};
use zonal::Nodes;

// The figures of a case, by each node's zones, TEC that weighs, TEC that pays, in all and in peak, and demand, by its wider and local potentials,
// and by what a share file says of its zones. Edition 1 has no peak: nothing of it is looked at.
pub fn figures(
    nodes: usize,
    settings: Settings,
    generation_zone: [usize; 256],
    tec: [Kw; 256],
    paying: [Kw; 256],
    paying_at_peak: [Kw; 256],
    demand_zone: [usize; 256],
    demand: [Kw; 256],
    wider: &[i64],
    peak_wider: &[i64],
    local: &[i64],
    shares: Shares,
) -> Figures
    ensures { result ≡ figures_over nodes settings generation_zone tec paying paying_at_peak demand_zone demand wider.now peak_wider.now local.now shares }
{
    if !case::settings_fit(settings) {
        return steps::no_figures();
    }
    let generation = Nodes {
        zone: &generation_zone,
        weight: &tec,
        paying: &paying,
    };
    let demand_side = Nodes {
        zone: &demand_zone,
        weight: &demand,
        paying: &demand,
    };
    let sides = zonal::backgrounds_of(
        settings,
        nodes,
        &generation,
        &paying_at_peak,
        &demand_side,
        wider,
        peak_wider,
    );
    let count = zones::nodes_in(nodes, local.len());
    case::ranged_figures(
        settings, &sides, count, &tec, &paying, &demand, local, &shares,
    )
}
