// Writings at a place, for this crate alone: each requires room and answers the place after it.
ghost use Rattle.std.specs.Prelude.{◌+◌, ◌≤◌, length, take};
ghost use Rattle.lines.specs.Making.{Put, width};

use lines::Line;

// Copies a text.
pub fn put_bytes(out: &mut [u8], at: usize, text: &[u8]) -> usize
    requires { at + length text.now ≤ length out.old }
    ensures { Put (length text.now) out.old at text.now out.new result }
{
    let end = at + text.len();
    out[at..end].copy_from_slice(text);
    end
}

// Copies a line.
pub fn put_line(out: &mut [u8], at: usize, line: &Line) -> usize
    requires { (line.now.len ≤ width) × (at + line.now.len ≤ length out.old) }
    ensures { Put line.now.len out.old at (take line.now.len line.now.bytes) out.new result }
{
    put_bytes(out, at, &line.bytes[..line.len])
}
