// Steps 8 to 10 of a case, from the sums of the zones of its two sides in each background.
ghost use Rattle.std.specs.Prelude.{◌≡◌, ◌≤◌, pos, length};
ghost use Rattle.meaning.specs.declared.Background.TheVariants.{YearRound, Peak};
ghost use Rattle.meaning.specs.Charging.{target_of};
ghost use Rattle.rests.specs.Rests.{start_of};
ghost use Rattle.boundaries.specs.Boundaries.{sharing_in};
ghost use Rattle.tariffs.specs.Sides.{side_from, SideFits};
ghost use Rattle.tariffs.specs.Case.{settings_fit, totals_fit, terms_of, zonal_in, basis_in, figures_of, figures_in, SettingsFit, CaseFits, SidesFit};

use crate::nodes::local_figures;
use crate::over::{Over, c_of};
use crate::shared::shares_fit;
use crate::side::side_figures;
use crate::wider::{Terms, Zoned};
use crate::zonal::Backgrounds;
use boundaries::Shares;
use meaning::{Figures, Kw, Metres, Settings, Side, SideFigures};
use rests::Rest;

// Whether the settings are in 01's ranges.
pub fn settings_fit(settings: Settings) -> bool
    ensures { result ≡ settings_fit settings }
{
    (settings.generation_zones <= 32)
        & (settings.demand_zones <= 32)
        & (settings.p <= 1000)
        & (settings.constant <= 10000)
        & (settings.wider_factor <= 5000)
        & (settings.local_factor <= 5000)
        & (settings.revenue <= 10000000000)
}

// Whether the kilowatts that pay on a side are in 01's range, and hold those that pay in its zones.
pub fn totals_fit(payers: Kw, year_round: Over, peak: Over) -> bool
    ensures { result ≡ totals_fit payers year_round peak }
{
    let k = payers.0;
    (1 <= k) & (k <= 100000000) & (year_round.total.0 <= k) & (peak.total.0 <= k)
}

// What prices the zones of a side in a background.
pub fn terms_of(settings: Settings, side: Side, c: Metres) -> Terms
    ensures { result ≡ terms_of settings side c }
{
    Terms {
        side,
        c,
        constant: settings.constant,
        factor: settings.wider_factor,
    }
}

// Step 10: the target of a side, over the kilowatts that pay.
pub fn target_of(settings: Settings, side: Side, payers: Kw) -> Rest
    requires { SettingsFit settings }
    ensures { result ≡ start_of (pos (target_of side settings.p settings.revenue)) payers.0 }
{
    let p = settings.p as u64;
    match side {
        Side::Generation => rests::start((settings.revenue * (1000 - p) * 1000) as i64, payers),
        Side::Demand => rests::start((settings.revenue * p * 1000) as i64, payers),
    }
}

// A side, from a rest that has its local tariffs taken off.
fn side_of(
    settings: Settings,
    side: Side,
    sides: &Backgrounds,
    shares: &Shares,
    c: Metres,
    peak_c: Metres,
    rest: Rest,
    payers: Kw,
) -> SideFigures
    requires { SideFits shares.now (zonal_in sides.now YearRound side) (zonal_in sides.now Peak side) (terms_of settings side c) (terms_of settings side peak_c) rest payers.0 }
    ensures { result ≡ side_from settings.edition shares.now (zonal_in sides.now YearRound side) (zonal_in sides.now Peak side) (terms_of settings side c) (terms_of settings side peak_c) rest payers.0 }
{
    let year_round = Zoned {
        zonal: sides.year_round.of(side),
        terms: terms_of(settings, side, c),
    };
    let peak = Zoned {
        zonal: sides.peak.of(side),
        terms: terms_of(settings, side, peak_c),
    };
    side_figures(settings.edition, shares, &year_round, &peak, rest, payers)
}

// Steps 8 to 10 of a case whose numbers are in range. Demand shares nothing.
fn figures_from(
    settings: Settings,
    sides: &Backgrounds,
    payers: Kw,
    load: Kw,
    nodes: usize,
    tec: &[Kw; 256],
    paying: &[Kw; 256],
    local: &[i64],
    shares: &Shares,
) -> Figures
    requires { CaseFits settings sides.now payers load nodes paying.now local.now shares.now }
    ensures { result ≡ figures_of (basis_in settings sides.now payers.0 load.0 nodes tec.now paying.now local.now) (sharing_in shares.now sides.now.year_round.generation.count) }
{
    let k = settings.constant;
    let f = settings.local_factor;
    let g = target_of(settings, Side::Generation, payers);
    let d = target_of(settings, Side::Demand, load);
    let nodal = local_figures(nodes, tec, paying, local, k, f, g, payers);
    let p = settings.p as u64;
    let year_round = &sides.year_round;
    let peak = &sides.peak;
    let c = c_of(p, year_round.generation.over, year_round.demand.over);
    let peak_c = c_of(p, peak.generation.over, peak.demand.over);
    let lines = nodal.lines;
    let rest = nodal.rest;
    let none = Shares::none();
    Figures {
        edition: settings.edition,
        c,
        peak_c,
        generation: side_of(
            settings,
            Side::Generation,
            sides,
            shares,
            c,
            peak_c,
            rest,
            payers,
        ),
        demand: side_of(settings, Side::Demand, sides, &none, c, peak_c, d, load),
        nodes,
        local: lines,
    }
}

// Steps 6 to 10 of a case of that many nodes, with settings in range; no figures where a total is out of range.
pub fn ranged_figures(
    settings: Settings,
    sides: &Backgrounds,
    nodes: usize,
    tec: &[Kw; 256],
    paying: &[Kw; 256],
    demand: &[Kw; 256],
    local: &[i64],
    shares: &Shares,
) -> Figures
    requires { SidesFit settings sides.now × (nodes ≤ 256) × (nodes ≤ length local.now) }
    ensures { result ≡ figures_in settings sides.now nodes tec.now paying.now demand.now local.now shares.now }
{
    let year_round = &sides.year_round;
    let peak = &sides.peak;
    let payers = totals::total(nodes, *paying);
    let load = totals::total(nodes, *demand);
    let generation = totals_fit(payers, year_round.generation.over, peak.generation.over);
    let served = totals_fit(load, year_round.demand.over, peak.demand.over);
    let shared = shares_fit(shares, year_round.generation.count, payers);
    if generation & served & shared {
        return figures_from(
            settings, sides, payers, load, nodes, tec, paying, local, shares,
        );
    }
    steps::no_figures()
}
