// 02, request 6: low carbon plant types, and the rest.
ghost use Rattle.std.specs.Prelude.{◌≡◌};
ghost use Rattle.meaning.specs.Figures.{low_carbon};

use meaning::Plant;

// Whether a plant type is low carbon: types 1, 2 and 4.
#[tactic(auto, unfolding(meaning::specs::Figures::low_carbon))]
pub fn low(plant: Plant) -> bool
    ensures { result ≡ low_carbon plant }
{
    matches!(
        plant,
        Plant::Intermittent | Plant::NuclearAndCcs | Plant::Hydro
    )
}
