// Bytes of the file, inside it and across its end.
ghost use Rattle.std.specs.Prelude.{◌≡◌, ◌+◌, ◌<◌, ℕ, length, slice_index};

// The bytes from a place on; past the file's end they are 0.
pub fn bytes_at<const N: usize>(file: &[u8], at: usize) -> [u8; N]
    ensures { (k : ℕ) → k < N → slice_index result k ≡ slice_index file.now (at + k) }
{
    let rest = file.get(at..).unwrap_or_default();
    match rest.first_chunk() {
        Some(whole) => *whole,
        None => filled_up(rest),
    }
}

// The last bytes of the file, and then zeros.
fn filled_up<const N: usize>(rest: &[u8]) -> [u8; N]
    requires { length rest.now < N }
    ensures { (k : ℕ) → k < N → slice_index result k ≡ slice_index rest.now k }
{
    let mut bytes = [0; N];
    bytes[..rest.len()].copy_from_slice(rest);
    bytes
}
