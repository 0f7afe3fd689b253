// The settings' section, which begins the file.
ghost use Rattle.std.specs.Prelude.{◌≡◌};
ghost use Rattle.meaning.specs.File.{settings_at};

use crate::trailer;
use meaning::Settings;

// What stands there.
pub fn settings(file: &[u8]) -> Settings
    ensures { result ≡ settings_at file.now 0 }
{
    Settings {
        generation_zones: fields::u32_at(file, 0),
        demand_zones: fields::u32_at(file, 4),
        p: fields::u32_at(file, 8),
        constant: fields::u32_at(file, 12),
        wider_factor: fields::u32_at(file, 16),
        local_factor: fields::u32_at(file, 20),
        overhead400: fields::u32_at(file, 24),
        cable400: fields::u32_at(file, 28),
        overhead275: fields::u32_at(file, 32),
        cable275: fields::u32_at(file, 36),
        overhead132: fields::u32_at(file, 40),
        cable132: fields::u32_at(file, 44),
        reference: fields::u32_at(file, 48),
        edition: trailer::edition(file),
        revenue: fields::u64_at(file, 56),
    }
}
