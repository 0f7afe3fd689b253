// 01, steps 6 to 10: what each zone and each node pays. The figures of a case that nothing stops.
#![tactic(auto)]

ghost use Rattle.std.specs.Prelude.{◌≡◌};
ghost use Rattle.meaning.specs.Study.{lent};
ghost use Rattle.charges.specs.Charged.{peak_payers, shares_in, figures_in, charged_of};

use boundaries::Shares;
use meaning::{Edition, Figures, Kw, Refusal, Solutions};
use plants::Counted;
use station_table::by_node;
use tables::{Lengths, Opened};

// The TEC that pays in peak, by node; none is looked for in edition 1, which has no peak.
fn paying_at_peak(edition: Edition, by_type: [Kw; 1792]) -> [Kw; 256]
    ensures { result ≡ peak_payers edition by_type }
{
    match edition {
        Edition::First => [Kw(0); 256],
        Edition::Second => by_node(by_type, Counted::PayingAtPeak),
    }
}

// What a share file says of a case that was opened.
fn shares_in(opened: &Opened, share: &[u8]) -> Shares
    ensures { result ≡ shares_in opened.now share.now }
{
    let settings = opened.settings;
    let edition = settings.edition;
    let n = opened.counts.nodes;
    let zone = opened.nodes.generation_zone;
    let by_type = opened.by_type;
    shares::shares_of(edition, settings.generation_zones, n, zone, by_type, share)
}

// The figures of a case that was opened.
fn figures_of(opened: &Opened, runs: &Solutions, share: &[u8]) -> Figures
    ensures { result ≡ figures_in opened.now (lent runs.now) share.now }
{
    let settings = opened.settings;
    let tec = by_node(opened.by_type, Counted::All);
    let paying = by_node(opened.by_type, Counted::Paying);
    let at_peak = paying_at_peak(settings.edition, opened.by_type);
    let shares = shares_in(opened, share);
    tariffs::figures(
        opened.counts.nodes,
        settings,
        opened.nodes.generation_zone,
        tec,
        paying,
        at_peak,
        opened.nodes.demand_zone,
        opened.nodes.demand,
        runs.wider,
        runs.peak_wider,
        runs.local,
        shares,
    )
}

// Judges a case once, and makes its figures of the columns that were judged. Not inlined: a function takes and zeroes its room as it begins, and `charge` answers 1 and 2 before.
#[inline(never)]
fn of_columns(file: &[u8], runs: &Solutions, share: &[u8]) -> Result<Figures, Refusal>
    ensures { result ≡ charged_of file.now (lent runs.now) share.now }
{
    let mut opened = tables::nothing_read();
    match proposal::open(file, runs, share, &mut opened) {
        Err(cause) => Err(cause),
        Ok(()) => Ok(figures_of(&opened, runs, share)),
    }
}

// The figures of a case, or what stops it first among 1 to 11 and 13 to 16. A file that is not whole, or a bad setting, is answered before there is room for any table.
pub fn charge(file: &[u8], runs: &Solutions, share: &[u8]) -> Result<Figures, Refusal>
    ensures { result ≡ charged_of file.now (lent runs.now) share.now }
{
    // Neither `?` nor an early return: each zeroes room for the figures once more.
    match tables::frame(file, Lengths::of(runs)) {
        Err(cause) => Err(cause),
        Ok(()) => of_columns(file, runs, share),
    }
}
