// One boundary, known by its outer zone.
ghost use Rattle.std.specs.Prelude.{◌≡◌, cond, ◌≤◌};
ghost use Rattle.meaning.specs.Sharing.{passes, shared_distance, behind as behind_of, shared_part};
ghost use Rattle.chains.specs.Columns.{next_in};
ghost use Rattle.boundaries.specs.Boundaries.{kept, near};
ghost use Rattle.boundaries.specs.Parts.{PartFits};

use crate::at;
use meaning::{Kw, Metres};

// The zones that have boundaries, of which there are no more than 32: the next one inward of each, its low carbon and carbon TEC, and its metres.
#[derive(Clone, Copy)]
pub struct Zones<'a> {
    pub count: usize,
    pub next: &'a [usize; 32],
    pub low: &'a [Kw; 32],
    pub carbon: &'a [Kw; 32],
    pub metres: &'a [Metres; 32],
    ghost few: { count ≤ 32 },
}

// The shared part of a distance: the factor is 1 up to half low carbon, else 2 less twice the proportion.
fn shared(d: i64, low: u64, carbon: u64) -> i64
    requires { PartFits d low carbon }
    ensures { result ≡ shared_distance d low carbon }
{
    if low <= carbon {
        return d;
    }
    integers::floor_div(d * ((2 * carbon) as i64), low + carbon)
}

impl Zones<'_> {
    // The kilowatts of zone z if its chain passes zone b.
    fn kw_behind(&self, kw: &[Kw; 32], z: usize, b: usize) -> u64
        ensures { result ≡ cond (passes (next_in self.now.next.now) self.now.count z b) (kept kw.now z) 0 }
    {
        if chains::passes(self.next, self.count, z, b) {
            return at::kw_at(kw, z);
        }
        0
    }

    // The kilowatts of every zone whose chain passes zone b.
    fn behind(&self, kw: &[Kw; 32], b: usize) -> u64
        ensures { result ≡ behind_of self.now.count (next_in self.now.next.now) (kept kw.now) b }
    {
        let mut sum = 0;
        for i in 0..self.count {
            sum += self.kw_behind(kw, i + 1, b);
        }
        sum
    }

    // The shared part of the boundary of zone z.
    pub fn shared_part(&self, z: usize) -> i64
        ensures { result ≡ shared_part self.now.count (next_in self.now.next.now) (kept self.now.low.now) (kept self.now.carbon.now) (near self.now.metres.now) z }
    {
        let inner = chains::step(self.next, z);
        let outer_metres = at::metres_at(self.metres, z);
        let inner_metres = at::metres_at(self.metres, inner);
        let l = self.behind(self.low, z);
        let c = self.behind(self.carbon, z);
        shared(outer_metres - inner_metres, l, c)
    }
}
