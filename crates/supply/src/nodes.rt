// 01, step 3: the supply of each node.
ghost use Rattle.std.specs.Prelude.{◌≡◌, ◌+◌, ◌≤◌, ◌<◌, pos};
ghost use Rattle.meaning.specs.Columns.{kw_at, column};
ghost use Rattle.supply.specs.Supply.{net_supply, Small};

use meaning::Kw;

// 1,000,000 times the net kW.
pub fn net_supply(fixed: Kw, scaled: Kw, demand: Kw) -> i64
    requires { (fixed.0 ≤ 100000000) × (scaled.0 ≤ 100000000) × (demand.0 ≤ 100000000) }
    ensures { result ≡ net_supply (fixed.0 + scaled.0) demand.0 }
{
    1000000 * ((fixed.0 + scaled.0) as i64 - demand.0 as i64)
}

// The supply of each node, by what is fixed, what it runs of its variable TEC, and its demand.
pub fn supplies(n: usize, fixed: &[Kw; 256], scaled: &[Kw; 256], demand: &[Kw; 256]) -> [i64; 256]
    requires { (n ≤ 256) × Small n fixed.now × Small n scaled.now × Small n demand.now }
    ensures { result ≡ column (pos 0) 256 n (λ v. net_supply (kw_at fixed.now v + kw_at scaled.now v) (kw_at demand.now v)) }
{
    let mut supply = [0; 256];
    for v in 0..n {
        supply[v] = net_supply(fixed[v], scaled[v], demand[v]);
    }
    supply
}
