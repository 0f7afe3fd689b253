// Steps 8 to 10 of a side: the tariffs of its backgrounds, the shared ones, its residual and its remainder.
ghost use Rattle.std.specs.Prelude.{◌≡◌};
ghost use Rattle.tariffs.specs.Sides.{form_in, side_from, SideFits};

use crate::lines::zone_lines;
use crate::metres::{not_shared, zone_metres};
use crate::shared::{shared_lines, shared_zones};
use crate::wider::{Zoned, wider_lines};
use boundaries::{Shares, split_metres};
use meaning::{Edition, Form, Kw, MicroPerKw, SideFigures};
use rests::Rest;

// The form of its lines.
pub fn form_in(edition: Edition, in_force: bool) -> Form
    ensures { result ≡ form_in edition in_force }
{
    if in_force {
        return Form::Sharing;
    }
    match edition {
        Edition::First => Form::OneBackground,
        Edition::Second => Form::TwoBackgrounds,
    }
}

// A side whose rest has its local tariffs taken off.
pub fn side_figures(
    edition: Edition,
    shares: &Shares,
    year_round: &Zoned,
    peak: &Zoned,
    rest: Rest,
    payers: Kw,
) -> SideFigures
    requires { SideFits shares.now year_round.now.zonal.now peak.now.zonal.now year_round.now.terms peak.now.terms rest payers.0 }
    ensures { result ≡ side_from edition shares.now year_round.now.zonal.now peak.now.zonal.now year_round.now.terms peak.now.terms rest payers.0 }
{
    let zones = year_round.zonal.count;
    let sums = &year_round.zonal.sums;
    let parts = split_metres(*shares, zones, zone_metres(sums));
    let own = wider_lines(&not_shared(&parts), year_round, rest, payers);
    let metres = zone_metres(&peak.zonal.sums);
    let at_peak = wider_lines(&metres, peak, own.rest, payers);
    let with_shared = shared_zones(shares.in_force, zones);
    let terms = year_round.terms;
    let shared = shared_lines(&parts, &shares.kw, with_shared, terms, at_peak.rest, payers);
    let residual = MicroPerKw(shared.rest.each);
    SideFigures {
        form: form_in(edition, shares.in_force),
        zones,
        residual,
        remainder: shared.rest.over as i64,
        zone: zone_lines(
            sums,
            zones,
            &own.lines,
            &at_peak.lines,
            &shared.lines,
            residual,
        ),
    }
}
