// Step 10 of the zones of a side: totals, and their lines.
ghost use Rattle.std.specs.Prelude.{◌≡◌, ◌≤◌, nat_abs, ◌+ℤ◌};
ghost use Rattle.meaning.specs.Columns.{column, no_line, price as price_of};
ghost use Rattle.tariffs.specs.Sides.{sums_in, wider_at, shared_at, line_from, LinesFit};

use meaning::{Kw, MicroPerKw, SharedFigures, WiderFigures, ZoneFigures};
use zones::ZoneSums;

// The tariffs of a zone plus the residual; the shared tariff is left out (02, request 6).
pub fn total_of(year_round: MicroPerKw, peak: MicroPerKw, residual: MicroPerKw) -> MicroPerKw
    requires { (nat_abs year_round.0 ≤ 330000000000) × (nat_abs peak.0 ≤ 330000000000) × (nat_abs residual.0 ≤ 9000000000000000000) }
    ensures { result ≡ price_of (year_round.0 +ℤ peak.0 +ℤ residual.0) }
{
    MicroPerKw(year_round.0 + peak.0 + residual.0)
}

// The line of a zone.
pub fn zone_line(
    weight: Kw,
    year_round: WiderFigures,
    peak: WiderFigures,
    shared: SharedFigures,
    residual: MicroPerKw,
) -> ZoneFigures
    requires { (nat_abs year_round.tariff.0 ≤ 330000000000) × (nat_abs peak.tariff.0 ≤ 330000000000) × (nat_abs residual.0 ≤ 9000000000000000000) }
    ensures { result ≡ line_from weight year_round peak shared residual }
{
    ZoneFigures {
        weight,
        year_round,
        peak,
        shared,
        total: total_of(year_round.tariff, peak.tariff, residual),
    }
}

// The lines of zones 1 to count.
pub fn zone_lines(
    sums: &[ZoneSums; 32],
    count: usize,
    year_round: &[WiderFigures; 32],
    peak: &[WiderFigures; 32],
    shared: &[SharedFigures; 32],
    residual: MicroPerKw,
) -> [ZoneFigures; 32]
    requires { (count ≤ 32) × LinesFit year_round.now × LinesFit peak.now × (nat_abs residual.0 ≤ 9000000000000000000) }
    ensures { result ≡ column no_line 32 count (λ k. line_from (sums_in sums.now k).weight (wider_at year_round.now k) (wider_at peak.now k) (shared_at shared.now k) residual) }
{
    let mut all = [steps::no_line(); 32];
    for k in 0..count {
        all[k] = zone_line(sums[k].weight, year_round[k], peak[k], shared[k], residual);
    }
    all
}
