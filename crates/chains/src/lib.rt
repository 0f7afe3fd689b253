// 02, request 6: the file `share.bin` judged, refusal 16; what it says, in arrays; and the chains that it draws, walked. Every input has its answer.
#![tactic(auto)]

mod frame;
mod zone;

ghost use Rattle.std.specs.Prelude.{◌≡◌, get_or, min};
ghost use Rattle.meaning.specs.Sharing.{in_force, passes as passes_of};
ghost use Rattle.chains.specs.Columns.{of_zone, next_in, inward_of, factors_of, stage_in};

use meaning::{Edition, Judgement, Kw, Refusal};
use std::array;
use zone::Zones;

// Whether the file counts: in edition 2, and not an empty one.
pub fn in_force(edition: Edition, share: &[u8]) -> bool
    ensures { result ≡ in_force edition share.now }
{
    match edition {
        Edition::First => false,
        Edition::Second => !share.is_empty(),
    }
}

// The row of a zone in an array; nothing of what is no zone.
pub fn of_zone<T: Copy>(rows: &[T; 32], z: usize, nothing: T) -> T
    ensures { result ≡ of_zone nothing (λ i. get_or rows.now i nothing) z }
{
    match z {
        1..=32 => rows[z - 1],
        _ => nothing,
    }
}

// For each zone the next one inward, as the file has it; 0 past the last zone, and no more than 32.
pub fn inward(share: &[u8], zones: usize) -> [usize; 32]
    ensures { result ≡ inward_of share.now zones }
{
    let mut all = [0; 32];
    for i in 0..zones.min(32) {
        all[i] = fields::u32_at(share, 4 * i);
    }
    all
}

// Each plant type's load factor in thousandths, after the numbers of the zones, of which there are no more than 32.
pub fn load_factors(share: &[u8], zones: usize) -> [u64; 7]
    ensures { result ≡ factors_of share.now zones }
{
    if 32 < zones {
        return [0; 7];
    }
    array::from_fn(|t| frame::load_factor(share, zones, t))
}

// The next zone inward; what is no zone leads nowhere.
pub fn step(next: &[usize; 32], z: usize) -> usize
    ensures { result ≡ next_in next.now z }
{
    of_zone(next, z, 0)
}

// Whether the chain of zone z passes zone b. Where it has ended it passes no more.
pub fn passes(next: &[usize; 32], zones: usize, z: usize, b: usize) -> bool
    ensures { result ≡ passes_of (next_in next.now) (min zones 32) z b }
{
    let mut here = z;
    for _ in 0..=zones.min(32) {
        if here == b {
            return true;
        }
        if here == 0 {
            return false;
        }
        here = step(next, here);
    }
    false
}

// Refusal 16: a wrong length or load factor, else the lowest zone that is not sound. More than 32 zones are none of 01's.
pub fn stage(share: &[u8], zones: usize, tec: [Kw; 32]) -> Judgement
    ensures { result ≡ stage_in share.now zones tec }
{
    if (32 < zones) || !frame::sound(share, zones) {
        return Err(Refusal::BadShare(0));
    }
    let next = inward(share, zones);
    let all = Zones {
        count: zones,
        next: &next,
        tec: &tec,
    };
    if let Some(i) = all.first_unsound() {
        return Err(Refusal::BadShare(i + 1));
    }
    Ok(())
}
