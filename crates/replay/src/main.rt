// Replays an archive of cases: each a length (4 bytes, little-endian) and that many bytes of a case, then the same of its share file, which may be empty. Prints what the program prints for each, one after the other.
#![tactic(auto)]

ghost use Rattle.std.specs.Prelude.{◌≤◌, IfSome, length};

use std::io;
use std::io::{Read, Write};

// Reads a length and that many bytes into a buffer; none where the archive ends or the buffer is too short.
fn read_part<R: Read>(from: &mut R, buffer: &mut [u8]) -> Option<usize>
    ensures { IfSome result (λ count. count ≤ length buffer.new) }
{
    let mut head = [0u8; 4];
    from.read_exact(&mut head).ok()?;
    let length = fields::u32_at(&head, 0);
    if length > buffer.len() {
        return None;
    }
    from.read_exact(&mut buffer[..length]).ok()?;
    Some(length)
}

// Reads one case and its share file, and prints their output; false where the archive ends.
fn replayed<R: Read, W: Write>(from: &mut R, to: &mut W) -> io::Result<bool> {
    let mut space = [0u8; 65536];
    let Some(length) = read_part(from, &mut space) else {
        return Ok(false);
    };
    let mut share = [0u8; 256];
    let Some(shared) = read_part(from, &mut share) else {
        return Ok(false);
    };
    let printed = output::print(&space, length, &share, shared);
    to.write_all(&printed.bytes[..printed.length])?;
    Ok(true)
}

// No archive has more cases than this.
fn main(rt: HostRuntime) -> io::Result<()> {
    let mut from = rt.stdin();
    let mut to = rt.stdout();
    for _ in 0..100000 {
        if !replayed(&mut from, &mut to)? {
            break;
        }
    }
    Ok(())
}
