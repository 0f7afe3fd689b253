// Step 7, and 02, request 6: the metres that zone tariffs are of.
ghost use Rattle.std.specs.Prelude.{◌≡◌};
ghost use Rattle.tariffs.specs.Sides.{metres_over, not_shared_over};

use crate::over::metres_of;
use boundaries::Split;
use meaning::Metres;
use zones::ZoneSums;

// The zonal metres of all 32 zones.
pub fn zone_metres(sums: &[ZoneSums; 32]) -> [Metres; 32]
    ensures { result ≡ metres_over sums.now }
{
    sums.map(metres_of)
}

// Those that are not shared.
pub fn not_shared(parts: &[Split; 32]) -> [Metres; 32]
    ensures { result ≡ not_shared_over parts.now }
{
    parts.map(|part| part.not_shared)
}
