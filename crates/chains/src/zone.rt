// One zone's number judged, and the lowest zone whose number is not sound.
ghost use Rattle.std.specs.Prelude.{◌≡◌, suc, ◌-◌, ◌≤◌, eqb};
ghost use Rattle.meaning.specs.Rows.{any, failing};
ghost use Rattle.meaning.specs.Sharing.{after, is_centre, sound_zone};
ghost use Rattle.chains.specs.Columns.{zone_kw, next_in};
ghost use Rattle.chains.specs.Searches.{answered};

use meaning::Kw;

// The zones of a case, of which there are no more than 32: the next one inward of each, and its TEC.
#[derive(Clone, Copy)]
pub struct Zones<'a> {
    pub count: usize,
    pub next: &'a [usize; 32],
    pub tec: &'a [Kw; 32],
    ghost few: { count ≤ 32 },
}

impl Zones<'_> {
    // The TEC of a zone; none of what is no zone.
    fn kw(&self, z: usize) -> u64
        ensures { result ≡ zone_kw self.now.tec.now z }
    {
        crate::of_zone(self.tec, z, Kw(0)).0
    }

    // Whether a zone is a centre: it has TEC and names none.
    fn is_centre(&self, z: usize) -> bool
        ensures { result ≡ is_centre 32 (zone_kw self.now.tec.now) (next_in self.now.next.now) z }
    {
        (1 <= self.kw(z)) & (crate::step(self.next, z) == 0)
    }

    // Whether a zone below this one is a centre.
    fn has_centre_below(&self, z: usize) -> bool
        ensures { result ≡ any (λ i. is_centre 32 (zone_kw self.now.tec.now) (next_in self.now.next.now) (suc i)) (z - 1) }
    {
        (1..z).any(|k| self.is_centre(k))
    }

    // Whether the chain of a zone ends: it has where each zone has been passed.
    fn ends(&self, z: usize) -> bool
        ensures { result ≡ eqb (after (next_in self.now.next.now) (suc self.now.count) z) 0 }
    {
        let mut here = z;
        for _ in 0..=self.count {
            here = crate::step(self.next, here);
        }
        here == 0
    }

    // Whether a zone names none or one with TEC, has TEC if it names one, is no second centre, and its chain ends.
    fn is_sound(&self, z: usize) -> bool
        ensures { result ≡ sound_zone self.now.count (zone_kw self.now.tec.now) (next_in self.now.next.now) z }
    {
        let inner = crate::step(self.next, z);
        let own = self.kw(z);
        let there = self.kw(inner);
        let first = self.is_centre(z);
        let earlier = self.has_centre_below(z);
        ((inner == 0) | ((inner <= self.count) & (1 <= there)))
            & ((inner == 0) | (1 <= own))
            & !(first & earlier)
            & self.ends(z)
    }

    // The lowest of the zones, from 0, that is not sound.
    pub fn first_unsound(&self) -> Option<usize>
        ensures { result ≡ answered (failing (λ i. sound_zone self.now.count (zone_kw self.now.tec.now) (next_in self.now.next.now) (suc i)) self.now.count) }
    {
        (0..self.count).find(|&i| !self.is_sound(i + 1))
    }
}
