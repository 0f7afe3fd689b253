// Steps 6, 9 and 10 of the nodes: their local lines, and what their tariffs leave of the rest.
ghost use Rattle.std.specs.Prelude.{◌≡◌, ◌≤◌};
ghost use Rattle.tariffs.specs.Case.{local_from, node_from, local_of, NodesFit};

use crate::price::price;
use crate::priced::{Charge, Priced, price_places};
use meaning::{Kw, LocalFigures, Metres};
use rests::Rest;

// Step 6: local metres; 0 past their range.
pub fn local_metres(potential: i64) -> Metres
    ensures { result.0 ≡ local_from potential }
{
    let metres = steps::metres(potential);
    if numbers::within(metres.0, 10000000) {
        return metres;
    }
    Metres(0)
}

// Step 9: the local line of a node.
pub fn node_line(tec: Kw, potential: i64, constant: usize, factor: usize) -> LocalFigures
    requires { (constant ≤ 10000) × (factor ≤ 5000) }
    ensures { result ≡ node_from tec.0 «potential» constant factor }
{
    let metres = local_metres(potential);
    LocalFigures {
        tec,
        metres,
        tariff: price(metres, constant, factor),
    }
}

// Those of the first nodes, their tariffs taken off the rest.
pub fn local_figures(
    nodes: usize,
    tec: &[Kw; 256],
    paying: &[Kw; 256],
    local: &[i64],
    constant: usize,
    factor: usize,
    rest: Rest,
    payers: Kw,
) -> Priced<LocalFigures, 256>
    requires { NodesFit nodes local.now constant factor }
    ensures { result ≡ local_of nodes tec.now paying.now local.now constant factor rest payers.0 }
{
    price_places(steps::no_local(), nodes, rest, payers, |v| {
        let line = node_line(tec[v], local[v], constant, factor);
        Charge {
            line,
            tariff: line.tariff,
            kw: paying[v],
        }
    })
}
