// The numbers of a proposed solution, each by itself: any i64, also the lowest, which has no magnitude.
#![tactic(auto)]

ghost use Rattle.std.specs.Prelude.{◌≡◌, ℕ, ◌<◌, ◌≤◌, true, false, leb, nat_abs, length};
ghost use Rattle.meaning.specs.Rows.{failing};
ghost use Rattle.meaning.specs.Proposal.{number_in_range};
ghost use Rattle.meaning.specs.Direction.{direction, in_doubt, by_flows, counts_for, background};
ghost use Rattle.meaning.specs.Systems.{limit_of};
ghost use Rattle.numbers.specs.Numbers.{heading_by, decided_in, clear_in, decided_by, clear_by, even_in, pinned, row_of};

use meaning::{Background, Counting, Direction, Edition, System};

// 02, request 5: the background that a circuit counts for, and its base flow there.
#[derive(Clone, Copy)]
pub struct Heading {
    pub counting: Counting,
    pub flow: i64,
}

// Whether a number is within a limit of 0. A limit from 2^63 on has every number within it. By `unsigned_abs` the loops over runs take longer.
pub fn within(z: i64, limit: u64) -> bool
    ensures { result ≡ leb (nat_abs z) limit }
{
    let Ok(most) = i64::try_from(limit) else {
        return true;
    };
    -most <= z && z <= most
}

// Whether number i of a run is in range: flows stand after the potentials, and the reference's potential is 0.
fn number_in_range(n: usize, reference: usize, limit: u64, run: &[i64], i: usize) -> bool
    requires { i < length run.now }
    ensures { result ≡ number_in_range (pinned n reference) limit run.now i }
{
    let z = run[i];
    if n <= i {
        return within(z, 100000000000000);
    }
    if i == reference {
        return within(z, 0);
    }
    within(z, limit)
}

// The lowest of that many rows that fails a test, or their number where all pass.
fn first_failing<F: Fn(usize) -> bool>(count: usize, passes: F) -> usize
    requires { (i : ℕ) → i < count → F.pre passes i }
    ensures within { result ≤ count }
    ensures before { (i : ℕ) → i < result → F.post passes i true }
    ensures here { result < count → F.post passes result false }
{
    for i in 0..count {
        if !passes(i) {
            return i;
        }
    }
    count
}

// 01, 8: the lowest row of a run that is out of range, or the run's length.
pub fn first_out_of_range(n: usize, reference: usize, limit: u64, run: &[i64]) -> usize
    ensures { result ≡ row_of (failing (number_in_range (pinned n reference) limit run.now) (length run.now)) (length run.now) }
{
    first_failing(run.len(), |i| number_in_range(n, reference, limit, run, i))
}

// 01, step 4: idle, in doubt, or directed with the flow's sign.
pub fn direction_of(flow: i64) -> Direction
    ensures { result ≡ direction flow }
{
    if within(flow, 200000000) {
        return Direction::Idle;
    }
    if within(flow, 400000000) {
        return Direction::InDoubt;
    }
    if flow < 0 {
        return Direction::Backward;
    }
    Direction::Forward
}

// Whether a flow's direction is in doubt.
fn doubtful(flow: i64) -> bool
    ensures { result ≡ in_doubt (direction flow) }
{
    matches!(direction_of(flow), Direction::InDoubt)
}

// The background that a circuit of edition 2 counts for by its two base flows. A magnitude is at most 2^63, so no sum wraps.
fn by_flows(year_round: i64, peak: i64) -> Counting
    ensures { result ≡ by_flows year_round peak }
{
    let there = year_round.unsigned_abs();
    let here = peak.unsigned_abs();
    if there <= here + 400000000 {
        return Counting::For(Background::Peak);
    }
    if there <= here + 800000000 {
        return Counting::Doubtful;
    }
    Counting::For(Background::YearRound)
}

// 02, request 5: the background that a circuit counts for; year round alone where it is marked, and in edition 1.
pub fn counts_for(edition: Edition, mark: u64, year_round: i64, peak: i64) -> Counting
    ensures { result ≡ counts_for edition mark year_round peak }
{
    match edition {
        Edition::Second if mark == 0 => by_flows(year_round, peak),
        _ => Counting::For(Background::YearRound),
    }
}

// The background that was found; in doubt is refused as 15 before this is used.
pub fn background_of(counting: Counting) -> Background
    ensures { result ≡ background counting }
{
    match counting {
        Counting::For(found) => found,
        Counting::Doubtful => Background::YearRound,
    }
}

// A circuit's heading: the background that it counts for, and its base flow there.
pub fn heading_of(edition: Edition, mark: u64, year_round: i64, peak: i64) -> Heading
    ensures { result ≡ heading_by edition mark year_round peak }
{
    let counting = counts_for(edition, mark, year_round, peak);
    let flow = match background_of(counting) {
        Background::YearRound => year_round,
        Background::Peak => peak,
    };
    Heading { counting, flow }
}

// Whether a circuit has no length, or the background that it counts for is not in doubt.
fn decided(length: u64, heading: Heading) -> bool
    ensures { result ≡ decided_in length heading }
{
    length == 0 || matches!(heading.counting, Counting::For(_))
}

// Whether a circuit has no length, or its own base flow is not in doubt.
fn clear(length: u64, heading: Heading) -> bool
    ensures { result ≡ clear_in length heading }
{
    length == 0 || !doubtful(heading.flow)
}

// 02, 15: the lowest of 512 circuits with a length whose background is in doubt, or 512.
pub fn first_doubtful(lengths: &[u64; 512], headings: [Heading; 512]) -> usize
    ensures { result ≡ row_of (failing (decided_by lengths.now headings) 512) 512 }
{
    first_failing(512, |c| decided(lengths[c], headings[c]))
}

// 01, 11: the lowest of 512 circuits with a length whose own base flow is in doubt, or 512.
pub fn first_in_doubt(lengths: &[u64; 512], headings: [Heading; 512]) -> usize
    ensures { result ≡ row_of (failing (clear_by lengths.now headings) 512) 512 }
{
    first_failing(512, |c| clear(lengths[c], headings[c]))
}

// 01, 9: the lowest of 256 rows in which two columns differ, or 256.
pub fn first_apart(a: [i64; 256], b: [i64; 256]) -> usize
    ensures { result ≡ row_of (failing (even_in a b) 256) 256 }
{
    first_failing(256, |v| a[v] == b[v])
}

// 01, Quantities: the largest potential of a system.
pub fn limit_of(system: System) -> u64
    ensures { result ≡ limit_of system }
{
    match system {
        System::Base(_) => 2000000000000000000,
        System::Wider(_) | System::Local => 10000000000000000,
    }
}
