// How a plant type runs in a background: the table in 14.15.7 (of the later edition), column by column.
ghost use Rattle.std.specs.Prelude.{◌≡◌};
ghost use Rattle.meaning.specs.Generation.{runs_as};

use crate::peak;
use meaning::{Background, Edition, Plant, Running};

// Edition 2 year round.
#[tactic(auto, unfolding(meaning::specs::Generation::runs_as))]
fn year_round(plant: Plant) -> Running
    ensures { result ≡ runs_as Edition.Second Background.YearRound plant }
{
    match plant {
        Plant::Intermittent => Running::Fixed(70),
        Plant::NuclearAndCcs => Running::Fixed(85),
        Plant::Interconnector => Running::Fixed(100),
        Plant::Hydro => Running::Variable,
        Plant::PumpedStorage => Running::Fixed(50),
        Plant::Peaking => Running::Fixed(0),
        Plant::Other => Running::Variable,
    }
}

// Edition 2.
fn in_background(background: Background, plant: Plant) -> Running
    ensures { result ≡ runs_as Edition.Second background plant }
{
    match background {
        Background::YearRound => year_round(plant),
        Background::Peak => peak::runs(plant),
    }
}

// Either edition: in edition 1 every type is variable.
#[tactic(auto, unfolding(meaning::specs::Generation::runs_as))]
pub fn runs_as(edition: Edition, background: Background, plant: Plant) -> Running
    ensures { result ≡ runs_as edition background plant }
{
    match edition {
        Edition::First => Running::Variable,
        Edition::Second => in_background(background, plant),
    }
}
