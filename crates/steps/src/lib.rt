// 01, steps 6 and 7: the divisions of one number by another, for every input; and figures that say nothing.
#![tactic(auto)]

ghost use Rattle.std.specs.Prelude.{◌≡◌};
ghost use Rattle.meaning.specs.Charging.{metres as metres_of, turned, average_of, no_wider, no_shared};
ghost use Rattle.meaning.specs.Columns.{no_line, no_local};
ghost use Rattle.steps.specs.Nothing.{no_side, no_figures};

use meaning::{
    Edition, Figures, Form, Kw, LocalFigures, Metres, MicroPerKw, SharedFigures, Side, SideFigures,
    WiderFigures, ZoneFigures,
};

// Step 6: nodal metres, the potential's nanometres to the nearest.
pub fn metres(potential: i64) -> Metres
    ensures { result.0 ≡ metres_of potential }
{
    Metres(integers::nearest(potential, 1_000_000_000))
}

// Step 6: a node's distance, negated for demand.
pub fn distance(side: Side, potential: i64) -> Metres
    ensures { result.0 ≡ turned side (metres_of potential) }
{
    let rounded = metres(potential);
    match side {
        Side::Generation => rounded,
        Side::Demand => Metres(-rounded.0),
    }
}

// Step 7: an average, a sum of metres times kilowatts over the kilowatts, to the nearest.
pub fn average(sum: i64, kw: Kw) -> Metres
    ensures { result.0 ≡ average_of sum kw.0 }
{
    Metres(integers::nearest(sum, kw.0))
}

// What a background says of no zone.
pub fn no_wider() -> WiderFigures
    ensures { result ≡ no_wider }
{
    let none = Metres(0);
    WiderFigures {
        metres: none,
        after_c: none,
        tariff: MicroPerKw(0),
    }
}

// What is said of no shared metres.
pub fn no_shared() -> SharedFigures
    ensures { result ≡ no_shared }
{
    SharedFigures {
        metres: Metres(0),
        tariff: MicroPerKw(0),
    }
}

// The line of no zone.
pub fn no_line() -> ZoneFigures
    ensures { result ≡ no_line }
{
    let none = no_wider();
    ZoneFigures {
        weight: Kw(0),
        year_round: none,
        peak: none,
        shared: no_shared(),
        total: MicroPerKw(0),
    }
}

// The line of no node.
pub fn no_local() -> LocalFigures
    ensures { result ≡ no_local }
{
    LocalFigures {
        tec: Kw(0),
        metres: Metres(0),
        tariff: MicroPerKw(0),
    }
}

// A side without zones.
fn no_side() -> SideFigures
    ensures { result ≡ no_side }
{
    SideFigures {
        form: Form::OneBackground,
        zones: 0,
        residual: MicroPerKw(0),
        remainder: 0,
        zone: [no_line(); 32],
    }
}

// The figures of a case that is stopped: all zero.
pub fn no_figures() -> Figures
    ensures { result ≡ no_figures }
{
    let side = no_side();
    let none = Metres(0);
    Figures {
        edition: Edition::First,
        c: none,
        peak_c: none,
        generation: side,
        demand: side,
        nodes: 0,
        local: [no_local(); 256],
    }
}
