// 01, steps 4 and 5: a circuit's signed length, and its offset in a system.
ghost use Rattle.std.specs.Prelude.{◌≡◌};
ghost use Rattle.meaning.specs.Editions.{same_background};
ghost use Rattle.meaning.specs.Direction.{background as own_background};
ghost use Rattle.flows.specs.Flows.{signed_by, wider_in, offset_in};

use meaning::{Background, Counting, Direction, System};
use numbers::Heading;

// A circuit's length in nm with the sign of its own base flow, or 0 when idle.
pub fn signed_length(long: u64, flow: i64) -> i64
    ensures { result ≡ signed_by long flow }
{
    if long > 30000000000 {
        return 0;
    }
    let nm = (1000000 * long) as i64;
    match numbers::direction_of(flow) {
        Direction::Forward => nm,
        Direction::Backward => -nm,
        Direction::Idle | Direction::InDoubt => 0,
    }
}

// Whether a circuit that counts so counts for a background.
#[tactic(auto, using(crate::proofs::Signed::same_is))]
pub fn counts_in(background: Background, counting: Counting) -> bool
    ensures { result ≡ same_background background (own_background counting) }
{
    background == numbers::background_of(counting)
}

// An unmarked circuit's offset in the wider system of a background: its signed length where it counts for it, nothing in the other.
pub fn wider_offset(background: Background, long: u64, heading: Heading) -> i64
    ensures { result ≡ wider_in background long heading }
{
    if counts_in(background, heading.counting) {
        return signed_length(long, heading.flow);
    }
    0
}

// A circuit's offset: its signed length in the system of its mark and background, nothing in another.
pub fn offset_of(system: System, long: u64, mark: u64, heading: Heading) -> i64
    ensures { result ≡ offset_in system long mark heading }
{
    match system {
        System::Wider(background) if mark == 0 => wider_offset(background, long, heading),
        System::Local if mark != 0 => signed_length(long, heading.flow),
        _ => 0,
    }
}
