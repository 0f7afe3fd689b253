// 01, 7, and 02, 13: total demand, total TEC and the TEC that pays, added up as far as their range and judged.
#![tactic(auto)]

ghost use Rattle.std.specs.Prelude.{◌≡◌, leb};
ghost use Rattle.meaning.specs.Grid.{sound_totals};
ghost use Rattle.totals.specs.Totals.{total_of};

use meaning::Kw;

// The total of the first n of 256 kilowatts; past 10^8, and of more than 256, it is 10^8 + 1, so that no sum wraps.
pub fn total(n: usize, column: [Kw; 256]) -> Kw
    ensures { result ≡ total_of n column }
{
    if n > 256 {
        return Kw(100000001);
    }
    let mut total = 0;
    for kw in &column[..n] {
        if kw.0 > 100000000 - total {
            return Kw(100000001);
        }
        total += kw.0;
    }
    Kw(total)
}

// Whether 7 passes both: each in its range, and enough TEC.
pub fn sound(demand: Kw, tec: Kw) -> bool
    ensures { result ≡ sound_totals demand.0 tec.0 }
{
    (1 <= demand.0)
        & (demand.0 <= 100000000)
        & ((1 <= tec.0) & (tec.0 <= 100000000))
        & (demand.0 <= tec.0)
}

// Whether 13 passes the TEC that pays: some is chargeable.
pub fn chargeable(paying: Kw) -> bool
    ensures { result ≡ leb 1 paying.0 }
{
    1 <= paying.0
}
