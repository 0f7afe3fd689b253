// Lines with numbers, for this crate alone.
ghost use Rattle.std.specs.Prelude.{◌+◌, ◌*◌, ◌++◌, ◌≤◌, length};
ghost use Rattle.meaning.specs.Text.{text, natural, decimal};
ghost use Rattle.lines.specs.Making.{Adds, spaced, width};

use crate::Line;
use crate::words::push;

// A number without sign more: all digits but the last, then the last.
pub fn push_natural(line: &mut Line, n: u64)
    requires { line.old.len + length (natural n) ≤ width }
    ensures { Adds (length (natural n)) line.old (natural n) line.new }
{
    if n < 10 {
        return push(line, b'0' + n as u8);
    }
    push_natural(line, n / 10);
    push(line, b'0' + (n % 10) as u8);
}

// A number more, with a minus sign only below zero.
pub fn push_decimal(line: &mut Line, z: i64)
    requires { line.old.len + 20 ≤ width }
    ensures { Adds 20 line.old (decimal z) line.new }
{
    let below_zero = z < 0;
    if below_zero {
        push(line, b'-');
    }
    push_natural(line, z.unsigned_abs());
}

// A space and a count more.
pub fn push_count(line: &mut Line, n: usize)
    requires { line.old.len + 21 ≤ width }
    ensures { Adds 21 line.old (text " " ++ natural n) line.new }
{
    push(line, b' ');
    push_natural(line, n as u64);
}

// These numbers more, each behind a space.
pub fn push_numbers(line: &mut Line, numbers: &[i64])
    requires { line.old.len + 21 * length numbers.now ≤ width }
    ensures { Adds (21 * length numbers.now) line.old (spaced numbers.now) line.new }
{
    for z in numbers {
        push(line, b' ');
        push_decimal(line, *z);
    }
}
