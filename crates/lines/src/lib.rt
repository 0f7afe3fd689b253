// The lines of a sheet, and the line of a refusal, made by value: any figures have one, and it fits.
#![tactic(auto)]

mod digits;
mod words;

ghost use Rattle.std.specs.Prelude.{◌≡◌, [], ◌++◌, take, length, ◌+◌, ◌≤◌};
ghost use Rattle.meaning.specs.Name.{unpadded};
ghost use Rattle.meaning.specs.Text.{line, text};
ghost use Rattle.meaning.specs.Sheet.{constant_fields, letter, zone_fields, node_line, remainder_fields, wider_then};
ghost use Rattle.meaning.specs.Outcome.{refused_fields};
ghost use Rattle.lines.specs.Making.{Adds, Holds, spaced, told, width};

use digits::{push_count, push_numbers};
use meaning::{
    Edition, Form, LocalFigures, Metres, MicroPerKw, Side, Values, WiderFigures, ZoneFigures,
};
use words::{empty, line_of, push, push_name, push_word};

// Room for any line: a zone's is the longest, 233 bytes at most whatever its numbers.
pub const WIDTH: usize = 240;

// The text of a line, zeros behind it, and its length (there is no heap).
#[derive(Clone, Copy)]
pub struct Line {
    pub bytes: [u8; WIDTH],
    pub len: usize,
}

// The line of C: in edition 2 peak's before year round's.
pub fn constant_line(edition: Edition, c: Metres, peak_c: Metres) -> Line
    ensures { Holds 44 (line (constant_fields edition c.0 peak_c.0)) result }
{
    match edition {
        Edition::First => numbered(b"C", &[c.0]),
        Edition::Second => numbered(b"C", &[peak_c.0, c.0]),
    }
}

// A line of a letter and up to two numbers.
fn numbered(letter: &[u8], numbers: &[i64]) -> Line
    requires { (length letter.now ≡ 1) × (length numbers.now ≤ 2) }
    ensures { Holds 44 (letter.now ++ (spaced numbers.now ++ text "\n")) result }
{
    let mut line = line_of(letter);
    push_numbers(&mut line, numbers);
    push(&mut line, b'\n');
    line
}

// The letter of a side.
fn letter_of(side: Side) -> Line
    ensures { Holds 1 (letter side) result }
{
    match side {
        Side::Generation => line_of(b"G"),
        Side::Demand => line_of(b"D"),
    }
}

// What a background says of a zone.
fn push_wider(line: &mut Line, w: WiderFigures)
    requires { line.old.len + 63 ≤ width }
    ensures { Adds 63 line.old (spaced (wider_then w [])) line.new }
{
    push_numbers(line, &[w.metres.0, w.after_c.0, w.tariff.0]);
}

// The numbers of a zone before residual and total, by the form of its line: year round's three; 02, request 5: peak's three before them;
// request 6: and the shared metres and their tariff after year round's.
fn push_figures(line: &mut Line, form: Form, z: ZoneFigures)
    requires { line.old.len + 168 ≤ width }
    ensures { Adds 168 line.old (spaced (told form z)) line.new }
{
    match form {
        Form::OneBackground => push_wider(line, z.year_round),
        Form::TwoBackgrounds => {
            push_wider(line, z.peak);
            push_wider(line, z.year_round);
        }
        Form::Sharing => {
            push_wider(line, z.peak);
            push_wider(line, z.year_round);
            push_numbers(line, &[z.shared.metres.0, z.shared.tariff.0]);
        }
    }
}

// The line of a zone: `-` with no kilowatts.
pub fn zone_line(form: Form, side: Side, zone: usize, residual: MicroPerKw, z: ZoneFigures) -> Line
    ensures { Holds width (line (zone_fields form side zone residual.0 z)) result }
{
    let mut line = letter_of(side);
    push_count(&mut line, zone);
    if z.weight.0 == 0 {
        push_word(&mut line, b" -\n");
        return line;
    }
    push_figures(&mut line, form, z);
    push_numbers(&mut line, &[residual.0, z.total.0]);
    push(&mut line, b'\n');
    line
}

// The line of a node, whose name stands at the front of these bytes: none without TEC.
pub fn node_line(name: &[u8], l: LocalFigures) -> Line
    ensures { Holds 57 (node_line (unpadded (take 12 name.now)) l) result }
{
    if l.tec.0 == 0 {
        return empty();
    }
    let mut line = line_of(b"L ");
    push_name(&mut line, name);
    push_numbers(&mut line, &[l.metres.0, l.tariff.0]);
    push(&mut line, b'\n');
    line
}

// The line of the two remainders.
pub fn remainder_line(generation: i64, demand: i64) -> Line
    ensures { Holds 44 (line (remainder_fields generation demand)) result }
{
    numbered(b"R", &[generation, demand])
}

// `refused` with any number, system and row, whether or not a refusal carries them: that they are a refusal's is what `text::refuse` promises.
pub fn refused_line(v: Values) -> Line
    ensures { Holds 71 (line (refused_fields v)) result }
{
    let mut line = line_of(b"refused");
    push_count(&mut line, v.number);
    push_count(&mut line, v.system);
    push_count(&mut line, v.row);
    push(&mut line, b'\n');
    line
}
