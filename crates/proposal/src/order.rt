// 01, Order, and 02, request 5: 8, 9, 10 of systems 1 and 4; 15; 11; 8, 9, 10 of systems 2, 5 and 3. Edition 1 has no 4, no 15 and no 5.
ghost use Rattle.std.specs.Prelude.{◌≡◌};
ghost use Rattle.meaning.specs.Study.{lent};
ghost use Rattle.proposal.specs.Case.{lengths_in, proposals_in, AllJudgeable};

use crate::{doubt, solution};
use flows::Case;
use meaning::{Background, Judgement, Solutions, System};
use numbers::Heading;

// 8, 9, 10 of systems 2, 5 and 3, whose potentials are distances.
fn distances(k: &Case, headings: &[Heading; 512], runs: &Solutions) -> Judgement
    requires { AllJudgeable k.now (lent runs.now) }
    ensures { result ≡ lengths_in k.now headings.now (lent runs.now) }
{
    solution::of_distances(
        System::Wider(Background::YearRound),
        k,
        headings,
        runs.wider,
    )?;
    solution::of_peak_distances(k, headings, runs.peak_wider)?;
    solution::of_distances(System::Local, k, headings, runs.local)
}

// The first refusal of the proposals, in the order of the systems, by the circuits' headings, which are worked out once: where one stops the case, a later one is not looked at.
pub fn proposals(k: &Case, runs: &Solutions) -> Judgement
    requires { AllJudgeable k.now (lent runs.now) }
    ensures { result ≡ proposals_in k.now (lent runs.now) }
{
    solution::of_flows(Background::YearRound, k, runs.base)?;
    solution::of_peak_flows(k, runs.peak_base)?;
    let headings = flows::headings(k.edition, k.nodes, &k.mark, runs.base, runs.peak_base);
    doubt::backgrounds(&k.length, &headings)?;
    doubt::directions(&k.length, &headings)?;
    distances(k, &headings, runs)
}
