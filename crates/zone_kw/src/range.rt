// Numbers as far as they are in their ranges.
ghost use Rattle.std.specs.Prelude.{◌≡◌, ◌<◌};
ghost use Rattle.std.specs.Option.{MatchOption};
ghost use Rattle.zone_kw.specs.ByZone.{slot_of};

// A number up to a limit; a larger one counts as none.
#[tactic(auto, unfolding(crate::specs::ByZone::kept))]
pub fn kept(most: u64, x: u64) -> u64
    ensures { result ≡ Rattle.zone_kw.specs.ByZone.kept most x }
{
    if x <= most {
        return x;
    }
    0
}

// The row of a zone from 1 to 32.
pub fn slot_of(zone: usize) -> Option<usize>
    ensures { MatchOption result (slot_of zone ≡ 32) (λ slot. (slot ≡ slot_of zone) × (slot < 32)) }
{
    if (1 <= zone) & (zone <= 32) {
        return Some(zone - 1);
    }
    None
}
