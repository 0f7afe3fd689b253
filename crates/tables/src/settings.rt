// 2: the settings.
ghost use Rattle.std.specs.Prelude.{◌≡◌};
ghost use Rattle.meaning.specs.Answers.{unless};
ghost use Rattle.meaning.specs.Rows.{◌between◌and◌};
ghost use Rattle.meaning.specs.Tables.{sound_scales, sound_settings};

use meaning::{Judgement, Refusal, Settings};

// Whether a number is in a range, both ends in it.
pub fn between(x: usize, low: usize, high: usize) -> bool
    ensures { result ≡ x between low and high }
{
    (low <= x) & (x <= high)
}

// Whether zones, p, the constant and the security factors are in their ranges.
pub fn sound_scales(s: Settings) -> bool
    ensures { result ≡ sound_scales s }
{
    between(s.generation_zones, 1, 32)
        & between(s.demand_zones, 1, 32)
        & (s.p <= 1000)
        & between(s.constant, 1, 10000)
        & between(s.wider_factor, 1000, 5000)
        & between(s.local_factor, 1000, 5000)
}

// Whether each setting is in its range; the reference is a row of the nodes' table.
pub fn sound(s: Settings, nodes: usize) -> bool
    ensures { result ≡ sound_settings nodes s }
{
    sound_scales(s)
        & (s.overhead400 == 1000)
        & between(s.cable400, 1000, 30000)
        & between(s.overhead275, 1000, 30000)
        & between(s.cable275, 1000, 30000)
        & between(s.overhead132, 1000, 30000)
        & between(s.cable132, 1000, 30000)
        & between(s.reference, 1, nodes)
        & (s.revenue <= 10000000000)
}

// The stage: a setting out of its range.
pub fn stage(s: Settings, nodes: usize) -> Judgement
    ensures { result ≡ unless (sound_settings nodes s) Refusal.BadSetting }
{
    if sound(s, nodes) {
        return Ok(());
    }
    Err(Refusal::BadSetting)
}
