// Plant types at peak in edition 2: who pays, and how they run (14.15.7 of the later edition).
ghost use Rattle.std.specs.Prelude.{◌≡◌};
ghost use Rattle.meaning.specs.declared.Edition.TheVariants.{Second};
ghost use Rattle.meaning.specs.declared.Background.TheVariants.{Peak};
ghost use Rattle.meaning.specs.Grid.{pays_in};
ghost use Rattle.meaning.specs.Generation.{runs_as};

use meaning::{Plant, Running};

// Whether the TEC of a plant type pays at peak: neither interconnectors nor intermittent.
#[tactic(auto, unfolding(meaning::specs::Grid::pays_in))]
pub fn pays(plant: Plant) -> bool
    ensures { result ≡ pays_in Peak plant }
{
    match plant {
        Plant::Intermittent => false,
        Plant::NuclearAndCcs => true,
        Plant::Interconnector => false,
        Plant::Hydro => true,
        Plant::PumpedStorage => true,
        Plant::Peaking => true,
        Plant::Other => true,
    }
}

// How it runs.
#[tactic(auto, unfolding(meaning::specs::Generation::runs_as))]
pub fn runs(plant: Plant) -> Running
    ensures { result ≡ runs_as Second Peak plant }
{
    match plant {
        Plant::Intermittent => Running::Fixed(0),
        Plant::NuclearAndCcs => Running::Variable,
        Plant::Interconnector => Running::Fixed(0),
        Plant::Hydro => Running::Variable,
        Plant::PumpedStorage => Running::Variable,
        Plant::Peaking => Running::Variable,
        Plant::Other => Running::Variable,
    }
}
