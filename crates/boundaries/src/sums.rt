// Parts along the chains.
ghost use Rattle.std.specs.Prelude.{◌≡◌};
ghost use Rattle.meaning.specs.Sharing.{along as along_of};
ghost use Rattle.chains.specs.Columns.{next_in};
ghost use Rattle.boundaries.specs.Parts.{zones_in, part_in, PartsFit, parts_of, one_of};

use crate::part::Zones;
use crate::{Split, at};
use meaning::Metres;

// The zones that have boundaries: no more than 32, and none where nothing is shared.
pub fn zones_in(in_force: bool, zones: usize) -> usize
    ensures { result ≡ zones_in in_force zones }
{
    if in_force {
        return zones.min(32);
    }
    0
}

impl Zones<'_> {
    // The shared part of each zone's boundary.
    pub fn parts(&self) -> [i64; 32]
        ensures { result ≡ parts_of self.now.next.now self.now.count self.now.low.now self.now.carbon.now self.now.metres.now }
    {
        let mut all = [0; 32];
        for i in 0..32 {
            all[i] = self.shared_part(i + 1);
        }
        all
    }

    // The parts of the boundaries from zone z to the centre.
    fn along(&self, parts: &[i64; 32], z: usize) -> i64
        requires { PartsFit parts.now }
        ensures { result ≡ along_of self.now.count (next_in self.now.next.now) (part_in parts.now) self.now.count z }
    {
        let mut here = z;
        let mut sum = 0;
        for _ in 0..self.count {
            let inner = chains::step(self.next, here);
            if inner == 0 {
                return sum;
            }
            sum += chains::of_zone(parts, here, 0);
            here = inner;
        }
        sum
    }

    // One zone's metres: what is not shared is the rest of them.
    pub fn one(&self, parts: &[i64; 32], z: usize) -> Split
        requires { PartsFit parts.now }
        ensures { result ≡ one_of self.now.next.now self.now.count parts.now self.now.metres.now z }
    {
        let shared = self.along(parts, z);
        let all = at::metres_at(self.metres, z);
        Split {
            shared: Metres(shared),
            not_shared: Metres(all - shared),
        }
    }
}
