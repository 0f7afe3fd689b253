// What the judges of proposed solutions need of a case's columns.
ghost use Rattle.std.specs.Prelude.{◌≡◌, ◌≤◌};
ghost use Rattle.proposal.specs.Case.{background_supply, peak_supply, share_in, case_of};

use flows::Case;
use meaning::{Background, Edition, Judgement, Kw};
use plants::Counted;
use tables::Opened;

// The supply of each node in a background of an edition, from TEC by node and plant type.
pub fn background_supply(
    edition: Edition,
    background: Background,
    n: usize,
    by_type: [Kw; 1792],
    demand: [Kw; 256],
) -> [i64; 256]
    ensures { result ≡ background_supply edition background n by_type demand }
{
    let fixed = station_table::by_node(by_type, Counted::Fixed(edition, background));
    let variable = station_table::by_node(by_type, Counted::Variable(edition, background));
    supply::base_supply(n, fixed, variable, demand)
}

// Peak's supply: edition 1 has none.
pub fn peak_supply(edition: Edition, n: usize, by_type: [Kw; 1792], demand: [Kw; 256]) -> [i64; 256]
    ensures { result ≡ peak_supply edition n by_type demand }
{
    match edition {
        Edition::First => [0i64; 256],
        Edition::Second => background_supply(edition, Background::Peak, n, by_type, demand),
    }
}

// 16 of a file that was opened: 02, request 6.
pub fn share_stage(read: &Opened, share: &[u8]) -> Judgement
    ensures { result ≡ share_in read.now share.now }
{
    let settings = read.settings;
    let n = read.counts.nodes;
    let zone = read.nodes.generation_zone;
    shares::stage(
        settings.edition,
        settings.generation_zones,
        n,
        zone,
        read.by_type,
        share,
    )
}

// The case of a file that was opened.
pub fn case_of(read: &Opened) -> Case
    requires { 1 ≤ read.now.settings.reference }
    ensures { result ≡ case_of read.now }
{
    let settings = read.settings;
    let edition = settings.edition;
    let n = read.counts.nodes;
    let demand = read.nodes.demand;
    let supply = background_supply(edition, Background::YearRound, n, read.by_type, demand);
    let peak_supply = peak_supply(edition, n, read.by_type, demand);
    Case {
        edition,
        nodes: n,
        reference: settings.reference - 1,
        first: read.circuits.first,
        second: read.circuits.second,
        x: read.circuits.x,
        length: read.circuits.length,
        mark: read.circuits.mark,
        supply,
        peak_supply,
    }
}
