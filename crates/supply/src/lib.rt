// 01, steps 1 and 3, and 02, request 5: what each node supplies to the base system of a background.
#![tactic(auto)]

mod nodes;
mod scaled;

ghost use Rattle.std.specs.Prelude.{◌≡◌};
ghost use Rattle.supply.specs.Supply.{base_supply, supply_in, runnable as runnable_by};

use meaning::{Background, Kw, System};

// Whether totals are in their range, fixed kilowatts not above demand, and variable TEC enough for what remains.
fn runnable(fixed: Kw, variable: Kw, demand: Kw) -> bool
    ensures { result ≡ runnable_by fixed.0 variable.0 demand.0 }
{
    demand.0 <= 100000000
        && variable.0 <= 100000000
        && fixed.0 <= demand.0
        && demand.0 <= fixed.0 + variable.0
}

// The supply of each of n nodes in a background, by what is fixed, its variable TEC and its demand; nothing where 7 or 14 refuses their totals.
pub fn base_supply(n: usize, fixed: [Kw; 256], variable: [Kw; 256], demand: [Kw; 256]) -> [i64; 256]
    ensures { result ≡ base_supply n fixed variable demand }
{
    let least = totals::total(n, fixed);
    let most = totals::total(n, variable);
    let wanted = totals::total(n, demand);
    if runnable(least, most, wanted) {
        let remaining = Kw(wanted.0 - least.0);
        let shared = scaled::shared(n, &variable, remaining, most);
        return nodes::supplies(n, &fixed, &shared, &demand);
    }
    [0; 256]
}

// The supply of each node in a system, by that in the two bases: nothing in the others.
pub fn in_system(system: System, year_round: [i64; 256], peak: [i64; 256]) -> [i64; 256]
    ensures { result ≡ supply_in system year_round peak }
{
    match system {
        System::Base(Background::YearRound) => year_round,
        System::Base(Background::Peak) => peak,
        System::Wider(_) => [0; 256],
        System::Local => [0; 256],
    }
}
