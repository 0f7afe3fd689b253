// Names that are in the file.
ghost use Rattle.std.specs.Prelude.{◌≡◌, ◌+◌, ◌≤◌, ◌<◌, ℕ, length, slice_index};
ghost use Rattle.meaning.specs.Name.{same_name};
ghost use Rattle.meaning.specs.File.{name_at, u32, u64};
ghost use Rattle.names.specs.Inside.{Inside};

// Whether names at two places are both in the file.
pub fn inside(file: &[u8], a: usize, b: usize) -> bool
    ensures { Inside file.now a b result }
{
    file.len()
        .checked_sub(12)
        .is_some_and(|last| (a <= last) & (b <= last))
}

// Bytes that are in the file. The reader of `fields` asks where it ends, which is slower in the loops over rows.
fn bytes_in<const N: usize>(file: &[u8], at: usize) -> [u8; N]
    requires { at + N ≤ length file.now }
    ensures { (k : ℕ) → k < N → slice_index result k ≡ slice_index file.now (at + k) }
{
    let mut bytes = [0; N];
    bytes.copy_from_slice(&file[at..at + N]);
    bytes
}

// A u32.
fn whole_u32(file: &[u8], at: usize) -> u32
    requires { at + 4 ≤ length file.now }
    ensures { result ≡ u32 file.now at }
{
    u32::from_le_bytes(bytes_in(file, at))
}

// A u64.
fn whole_u64(file: &[u8], at: usize) -> u64
    requires { at + 8 ≤ length file.now }
    ensures { result ≡ u64 file.now at }
{
    u64::from_le_bytes(bytes_in(file, at))
}

// Whether two names that are in the file are the same: the last eight bytes, where names of a table mostly differ, then the first four.
// As slices or arrays of bytes it takes 2.6 to 4 times as long.
pub fn same_whole(file: &[u8], a: usize, b: usize) -> bool
    requires { (a + 12 ≤ length file.now) × (b + 12 ≤ length file.now) }
    ensures { result ≡ same_name (name_at file.now a) (name_at file.now b) }
{
    (whole_u64(file, a + 4) == whole_u64(file, b + 4)) & (whole_u32(file, a) == whole_u32(file, b))
}
