// Plant types: what counts of the TEC of one: all that weighs, what pays, what is fixed or variable in a background, what is low carbon or carbon.
#![tactic(auto)]

mod carbon;
mod peak;
mod running;
mod share;

ghost use Rattle.std.specs.Prelude.{◌≡◌};
ghost use Rattle.meaning.specs.Grid.{pays as pays_at_all};
ghost use Rattle.plants.specs.Counted.{part_of};

use meaning::{Background, Edition, Kw, Plant};

// The plant types, in the order of their numbers 1 to 7.
pub const TYPES: [Plant; 7] = [
    Plant::Intermittent,
    Plant::NuclearAndCcs,
    Plant::Interconnector,
    Plant::Hydro,
    Plant::PumpedStorage,
    Plant::Peaking,
    Plant::Other,
];

// What counts of TEC: all of it, what pays, what of this pays at peak; in a background of an edition what is fixed, and the TEC of the variable types;
// low carbon TEC, carbon TEC, and the TEC of one plant type.
#[derive(Clone, Copy)]
pub enum Counted {
    All,
    Paying,
    PayingAtPeak,
    Fixed(Edition, Background),
    Variable(Edition, Background),
    LowCarbon,
    Carbon,
    Of(Plant),
}

// Whether the TEC of a plant type pays: interconnectors don't.
#[tactic(auto, unfolding(meaning::specs::Grid::pays))]
fn pays(plant: Plant) -> bool
    ensures { result ≡ pays_at_all plant }
{
    match plant {
        Plant::Intermittent => true,
        Plant::NuclearAndCcs => true,
        Plant::Interconnector => false,
        Plant::Hydro => true,
        Plant::PumpedStorage => true,
        Plant::Peaking => true,
        Plant::Other => true,
    }
}

// What counts of the TEC of a plant type.
#[tactic(auto, using(crate::proofs::PlantLaws::low_percentage, crate::proofs::PlantLaws::same_is), unfolding(crate::specs::Counted::part_of))]
pub fn part(counted: Counted, plant: Plant, kw: Kw) -> Kw
    ensures { result.0 ≡ part_of counted plant kw.0 }
{
    match counted {
        Counted::All => kw,
        Counted::Paying => share::kept(pays(plant), kw),
        Counted::PayingAtPeak => share::kept(peak::pays(plant), kw),
        Counted::Fixed(edition, background) => share::fixed(
            running::runs_as(edition, background, plant),
            kw,
        ),
        Counted::Variable(edition, background) => share::variable(
            running::runs_as(edition, background, plant),
            kw,
        ),
        Counted::LowCarbon => share::kept(carbon::low(plant), kw),
        Counted::Carbon => share::kept(!carbon::low(plant), kw),
        Counted::Of(one) => share::kept(one == plant, kw),
    }
}
