// One judge of a proposed solution, for all systems: 01, step 2.
ghost use Rattle.std.specs.Prelude.{◌≡◌};
ghost use Rattle.meaning.specs.Proposal.{system_stage};
ghost use Rattle.flows.specs.Flows.{net_of};
ghost use Rattle.proposal.specs.Case.{proposed_in, Ready};

use meaning::{Judgement, Refusal, System};

// 8, then 9, then 10 of one system, lowest row first: rows of the whole run before anything is added.
pub fn judge_system<'a>(
    system: System,
    n: usize,
    reference: usize,
    first: &'a [usize; 512],
    second: &'a [usize; 512],
    x: &'a [u64; 512],
    supply: [i64; 256],
    offset: &[i64; 512],
    run: &[i64],
) -> Judgement
    requires { Ready n x.now offset.now run.now }
    ensures { result ≡ system_stage (net_of n reference first.now second.now x.now run.now) (proposed_in system supply offset.now run.now) }
{
    let row = numbers::first_out_of_range(n, reference, numbers::limit_of(system), run);
    if row < run.len() {
        return Err(Refusal::BadNumber(system, row + 1));
    }
    let node = numbers::first_apart(flows::net_flows(n, first, second, run), supply);
    if node < n {
        return Err(Refusal::Unbalanced(system, node + 1));
    }
    if flows::misses_low(n, first, second, x, offset, run) {
        return Ok(());
    }
    Err(Refusal::MissesTooHigh(system))
}
