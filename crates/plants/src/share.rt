// What of the kilowatts of a plant type counts.
ghost use Rattle.std.specs.Prelude.{◌≡◌, cond, ◌*◌, ◌/◌, ◌≤◌};
ghost use Rattle.meaning.specs.Generation.{fixed_part, is_variable};
ghost use Rattle.plants.specs.Running.{Percentage};

use meaning::{Kw, Running};

// All or none.
pub fn kept(counts: bool, kw: Kw) -> Kw
    ensures { result.0 ≡ cond counts kw.0 0 }
{
    if counts {
        return kw;
    }
    Kw(0)
}

// A percentage, rounded down: by whole hundreds and what is left of them, so that no product passes 64 bits.
#[tactic(auto, using(crate::proofs::PlantLaws::percent_split, crate::proofs::PlantLaws::percent_low))]
pub fn percent_of(percent: u64, kw: Kw) -> Kw
    requires { percent ≤ 100 }
    ensures { result.0 ≡ percent * kw.0 / 100 }
{
    let hundreds = kw.0 / 100;
    let rest = kw.0 % 100;
    Kw(percent * hundreds + percent * rest / 100)
}

// What is fixed.
#[tactic(auto, unfolding(meaning::specs::Generation::fixed_part))]
pub fn fixed(running: Running, kw: Kw) -> Kw
    requires { Percentage running }
    ensures { result.0 ≡ fixed_part running kw.0 }
{
    match running {
        Running::Fixed(percent) => percent_of(percent, kw),
        Running::Variable => Kw(0),
    }
}

// What may run where a variable type shares the demand.
#[tactic(auto, unfolding(meaning::specs::Generation::is_variable))]
pub fn variable(running: Running, kw: Kw) -> Kw
    ensures { result.0 ≡ cond (is_variable running) kw.0 0 }
{
    match running {
        Running::Fixed(_) => Kw(0),
        Running::Variable => kw,
    }
}
