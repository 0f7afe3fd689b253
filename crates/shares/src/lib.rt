// 02, request 6: what a share file says of a case that was opened: refusal 16, and the arrays that the split of its metres asks for.
#![tactic(auto)]

ghost use Rattle.std.specs.Prelude.{◌≡◌};
ghost use Rattle.shares.specs.OfCase.{stage_of, shares_of};

use boundaries::Shares;
use meaning::{Edition, Judgement, Kw};
use plants::Counted;
use station_table::by_node;
use zone_kw::by_zone;

// 16, of a file in force, from each node's zone and TEC by node and plant type.
pub fn stage(
    edition: Edition,
    zones: usize,
    nodes: usize,
    zone: [usize; 256],
    by_type: [Kw; 1792],
    share: &[u8],
) -> Judgement
    ensures { result ≡ stage_of edition zones nodes zone by_type share.now }
{
    if chains::in_force(edition, share) {
        let tec = by_zone(nodes, zone, by_node(by_type, Counted::All));
        return chains::stage(share, zones, tec);
    }
    Ok(())
}

// What the file says: of each zone the next one inward, low carbon and carbon TEC, and the kilowatts that pay its shared tariff.
pub fn shares_of(
    edition: Edition,
    zones: usize,
    nodes: usize,
    zone: [usize; 256],
    by_type: [Kw; 1792],
    share: &[u8],
) -> Shares
    ensures { result ≡ shares_of edition zones nodes zone by_type share.now }
{
    if chains::in_force(edition, share) {
        let factors = chains::load_factors(share, zones);
        let next = chains::inward(share, zones);
        let low = by_zone(nodes, zone, by_node(by_type, Counted::LowCarbon));
        let carbon = by_zone(nodes, zone, by_node(by_type, Counted::Carbon));
        return Shares {
            in_force: true,
            next,
            low,
            carbon,
            kw: zone_kw::shared_kw(nodes, zone, by_type, factors),
        };
    }
    Shares::none()
}
