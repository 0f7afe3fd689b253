// A run as it is read: 01, The case file, "one i64 potential a node, then one i64 flow a circuit".
ghost use Rattle.std.specs.Prelude.{◌≡◌};
ghost use Rattle.flows.specs.Flows.{number, carried as carried_by};
ghost use Rattle.flows.specs.Turns.{Counted};

// How many circuits a run of that length has a flow for, after n potentials; a table has at most 512.
pub fn circuits_in(n: usize, long: usize) -> usize
    ensures { Counted n long result }
{
    long.saturating_sub(n).min(512)
}

// Number i of a run, or 0 past its end.
pub fn number_at(run: &[i64], i: usize) -> i64
    ensures { result ≡ number run.now i }
{
    run.get(i).copied().unwrap_or(0)
}

// A flow, or 0 where it is out of its range, so that no sum of flows wraps.
pub fn carried(flow: i64) -> i64
    ensures { result ≡ carried_by flow }
{
    if numbers::within(flow, 100000000000000) {
        return flow;
    }
    0
}
