// Rows of names.
ghost use Rattle.std.specs.Prelude.{◌≡◌, true, ◌+◌, ◌≤◌, length};
ghost use Rattle.meaning.specs.Name.{same_name};
ghost use Rattle.meaning.specs.File.{name_at};

use crate::same::same_whole;
use crate::same_name;

// Whether the names at two places are the same, where it may be known that both are in the file: loops over rows ask that once, since asked in each turn it takes them a third longer.
pub fn row_is(file: &[u8], row: usize, at: usize, known: bool) -> bool
    requires { known ≡ true → (row + 12 ≤ length file.now) × (at + 12 ≤ length file.now) }
    ensures { result ≡ same_name (name_at file.now row) (name_at file.now at) }
{
    if known {
        same_whole(file, row, at)
    } else {
        same_name(file, row, at)
    }
}
