// One system's proposed solution, judged over its supply and offset: 01, steps 1 to 5, refusals 8 to 10.
ghost use Rattle.std.specs.Prelude.{◌≡◌};
ghost use Rattle.meaning.specs.declared.Background.TheVariants.{Peak};
ghost use Rattle.meaning.specs.declared.Edition.TheVariants.{Second};
ghost use Rattle.meaning.specs.declared.System.TheVariants.{Wider};
ghost use Rattle.meaning.specs.Answers.{in_second};
ghost use Rattle.proposal.specs.Case.{flows_in, solution_in, Judgeable};

use crate::kernel;
use flows::Case;
use meaning::{Background, Edition, Judgement, System};
use numbers::Heading;

// 8, 9 and 10 of a background's base system, whose offset is 0: no heading has a part in it.
pub fn of_flows(background: Background, k: &Case, run: &[i64]) -> Judgement
    requires { Judgeable k.now run.now }
    ensures { result ≡ flows_in background k.now run.now }
{
    let system = System::Base(background);
    let supply = supply::in_system(system, k.supply, k.peak_supply);
    let offset = [0i64; 512];
    kernel::judge_system(
        system,
        k.nodes,
        k.reference,
        &k.first,
        &k.second,
        &k.x,
        supply,
        &offset,
        run,
    )
}

// The same of peak's, which edition 2 alone has: in edition 1 its run is empty and not looked at.
pub fn of_peak_flows(k: &Case, run: &[i64]) -> Judgement
    requires { k.now.edition ≡ Second → Judgeable k.now run.now }
    ensures { result ≡ in_second k.now.edition (flows_in Peak k.now run.now) }
{
    match k.edition {
        Edition::First => Ok(()),
        Edition::Second => of_flows(Background::Peak, k, run),
    }
}

// 8, 9 and 10 of a system of distances: its offset by the circuits' headings, and no supply.
pub fn of_distances(system: System, k: &Case, headings: &[Heading; 512], run: &[i64]) -> Judgement
    requires { Judgeable k.now run.now }
    ensures { result ≡ solution_in system k.now headings.now run.now }
{
    let supply = supply::in_system(system, k.supply, k.peak_supply);
    let offset = flows::offsets(system, &k.length, &k.mark, *headings);
    kernel::judge_system(
        system,
        k.nodes,
        k.reference,
        &k.first,
        &k.second,
        &k.x,
        supply,
        &offset,
        run,
    )
}

// The same of peak's wider one.
pub fn of_peak_distances(k: &Case, headings: &[Heading; 512], run: &[i64]) -> Judgement
    requires { k.now.edition ≡ Second → Judgeable k.now run.now }
    ensures { result ≡ in_second k.now.edition (solution_in (Wider Peak) k.now headings.now run.now) }
{
    match k.edition {
        Edition::First => Ok(()),
        Edition::Second => of_distances(System::Wider(Background::Peak), k, headings, run),
    }
}
