// The file's length and its load factors.
ghost use Rattle.std.specs.Prelude.{◌≡◌, suc, ◌<◌, ◌≤◌, leb};
ghost use Rattle.meaning.specs.Rows.{all};
ghost use Rattle.meaning.specs.Sharing.{load_factor, sound_frame};

// The load factor of plant type t + 1, in thousandths: it stands after the numbers of the zones.
pub fn load_factor(share: &[u8], zones: usize, t: usize) -> u64
    requires { (zones ≤ 32) × (t < 7) }
    ensures { result ≡ load_factor share.now zones (suc t) }
{
    fields::u32_at(share, 4 * (zones + t)) as u64
}

// Whether each of the seven load factors is at most 1,000 thousandths.
pub fn low(share: &[u8], zones: usize) -> bool
    requires { zones ≤ 32 }
    ensures { result ≡ all (λ t. leb (load_factor share.now zones (suc t)) 1000) 7 }
{
    (0..7).all(|t| load_factor(share, zones, t) <= 1000)
}

// Whether the length is that of a number for each zone and seven load factors, and those are low.
pub fn sound(share: &[u8], zones: usize) -> bool
    requires { zones ≤ 32 }
    ensures { result ≡ sound_frame share.now zones }
{
    (share.len() == 4 * (zones + 7)) & low(share, zones)
}
