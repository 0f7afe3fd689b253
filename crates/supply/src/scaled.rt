// 01, step 1: scaled generation, of the demand that the variable TEC shares. Node TEC times that demand is at most 10^16.
ghost use Rattle.std.specs.Prelude.{◌≡◌, cond, ◌+◌, ◌*◌, ◌/◌, ◌%◌, ◌≤◌, eqb, ltb};
ghost use Rattle.meaning.specs.Scaled.{missing};
ghost use Rattle.meaning.specs.Columns.{kilowatts, kw_at, column};
ghost use Rattle.supply.specs.Supply.{scaled_by, Scalable, Sharable};

use meaning::Kw;

// Node TEC x total demand / total TEC, rounded down.
pub fn share(tec: Kw, demand: Kw, total: Kw) -> Kw
    requires { (tec.0 ≤ 100000000) × (demand.0 ≤ 100000000) × (1 ≤ total.0) }
    ensures { result.0 ≡ tec.0 * demand.0 / total.0 }
{
    Kw(tec.0 * demand.0 / total.0)
}

// 1 where that division leaves something over, else 0.
pub fn over(tec: Kw, demand: Kw, total: Kw) -> u64
    requires { (tec.0 ≤ 100000000) × (demand.0 ≤ 100000000) × (1 ≤ total.0) }
    ensures { result ≡ cond (eqb (tec.0 * demand.0 % total.0) 0) 0 1 }
{
    u64::from(tec.0 * demand.0 % total.0 != 0)
}

// One kilowatt more where something is left over, while fewer nodes before had something over than are missing.
pub fn with_over(share: Kw, over: u64, before: u64, missing: Kw) -> Kw
    requires { (share.0 ≤ 100000000) × (over ≤ 1) }
    ensures { result.0 ≡ share.0 + cond (ltb before missing.0) over 0 }
{
    if before < missing.0 {
        return Kw(share.0 + over);
    }
    share
}

// The kilowatts still missing: total demand less the shares.
pub fn missing_kw(n: usize, tec: &[Kw; 256], demand: Kw, total: Kw) -> Kw
    requires { Scalable n tec.now demand total }
    ensures { result.0 ≡ missing n (kw_at tec.now) demand.0 }
{
    let mut missing = demand.0;
    for v in 0..n {
        missing -= share(tec[v], demand, total).0;
    }
    Kw(missing)
}

// Scaled generation of each node: its share, and the missing kilowatts one each to the first nodes with something over.
pub fn scaled(n: usize, tec: &[Kw; 256], demand: Kw, total: Kw) -> [Kw; 256]
    requires { Scalable n tec.now demand total }
    ensures { result ≡ column (kilowatts 0) 256 n (λ v. kilowatts (scaled_by n tec.now demand v)) }
{
    let missing = missing_kw(n, tec, demand, total);
    let mut scaled = [Kw(0); 256];
    let mut before = 0;
    for v in 0..n {
        let kw = tec[v];
        let more = over(kw, demand, total);
        scaled[v] = with_over(share(kw, demand, total), more, before, missing);
        before += more;
    }
    scaled
}

// The same, also of no demand: where none remains a node runs nothing, and nothing is divided.
pub fn shared(n: usize, tec: &[Kw; 256], demand: Kw, total: Kw) -> [Kw; 256]
    requires { Sharable n tec.now demand total }
    ensures { result ≡ column (kilowatts 0) 256 n (λ v. kilowatts (scaled_by n tec.now demand v)) }
{
    if demand.0 == 0 {
        return [Kw(0); 256];
    }
    scaled(n, tec, demand, total)
}
