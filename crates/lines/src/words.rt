// Lines from bytes, words and names, for this crate alone.
ghost use Rattle.std.specs.Prelude.{◌≡◌, ◌==◌, [], ◌∷◌, ◌+◌, ◌≤◌, length, position, take};
ghost use Rattle.meaning.specs.Name.{unpadded};
ghost use Rattle.lines.specs.Making.{Adds, Holds, width};

use crate::{Line, WIDTH};

// A line without text.
pub fn empty() -> Line
    ensures { Holds 0 [] result }
{
    Line {
        bytes: [0; WIDTH],
        len: 0,
    }
}

// A line of one word.
pub fn line_of(word: &[u8]) -> Line
    requires { length word.now ≤ width }
    ensures { Holds (length word.now) word.now result }
{
    let mut line = empty();
    push_word(&mut line, word);
    line
}

// One byte more.
pub fn push(line: &mut Line, byte: u8)
    requires { line.old.len + 1 ≤ width }
    ensures { Adds 1 line.old (byte ∷ []) line.new }
{
    line.bytes[line.len] = byte;
    line.len += 1;
}

// A word more.
pub fn push_word(line: &mut Line, word: &[u8])
    requires { line.old.len + length word.now ≤ width }
    ensures { Adds (length word.now) line.old word.now line.new }
{
    let end = line.len + word.len();
    line.bytes[line.len..end].copy_from_slice(word);
    line.len = end;
}

// The place of the first space.
fn first_space(name: &[u8]) -> Option<usize>
    ensures { result ≡ position (λ b. b == 32) name.now }
{
    name.iter().position(|byte| *byte == b' ')
}

// A name more, without its padding: at most 12 bytes.
pub fn push_name(line: &mut Line, name: &[u8])
    requires { line.old.len + 12 ≤ width }
    ensures { Adds 12 line.old (unpadded (take 12 name.now)) line.new }
{
    let padded = &name[..name.len().min(12)];
    let end = first_space(padded).unwrap_or(padded.len());
    push_word(line, &padded[..end]);
}
