// 6: a walk along the circuits from the reference. Reached and visited nodes are sets, one bit a node in four words.
#![tactic(auto)]

mod circuits;

ghost use Rattle.std.specs.Prelude.{◌≡◌};
ghost use Rattle.meaning.specs.Network.{marked, reached_nodes, reach_stage};
ghost use Rattle.bits.specs.Sets.{SetOf};
ghost use Rattle.walk.specs.Walk.{walked};

use meaning::{Judgement, Refusal};

// The nodes that a walk from the reference reaches. The lowest node that waits is visited next, and with it the others of its word that wait: one look at the
// circuits serves them all. The walk ends when the ones number the nodes or no node waits.
pub fn reached(
    nodes: usize,
    reference: usize,
    circuits: usize,
    first: &[usize; 512],
    second: &[usize; 512],
) -> [u64; 4]
    ensures { SetOf result (marked (reached_nodes (walked nodes reference circuits first.now second.now))) }
{
    let n = nodes.min(256);
    let m = circuits.min(512);
    let mut reached = circuits::with_node([0; 4], reference, n);
    let mut visited = [0; 4];
    // No `for`: trailing zeros choose the next node, and counts of ones end the walk (01's form).
    loop {
        if bits::size(reached) == n {
            return reached;
        }
        let waiting = bits::without(reached, visited);
        let next = bits::lowest(waiting);
        if next == 256 {
            return reached;
        }
        let w = next / 64;
        let wider = circuits::follow(reached, visited, first, second, w, n, m);
        let more = bits::with_word(visited, w, waiting[w]);
        reached = wider;
        visited = more;
    }
}

// The stage: the lowest node that no walk reaches.
pub fn stage(
    nodes: usize,
    reference: usize,
    circuits: usize,
    first: &[usize; 512],
    second: &[usize; 512],
) -> Judgement
    ensures { result ≡ reach_stage (walked nodes reference circuits first.now second.now) }
{
    let n = nodes.min(256);
    let row = bits::first_missing(reached(nodes, reference, circuits, first, second), n);
    if row < n {
        return Err(Refusal::Unreached(row + 1));
    }
    Ok(())
}
