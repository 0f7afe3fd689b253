// The text of figures, and the line of a refusal, written into a lent buffer: all of it, or nothing.
#![tactic(auto)]

mod put;
mod sections;

ghost use Rattle.text.specs.SheetText.{text_of};
ghost use Rattle.text.specs.Writing.{Fitted};
ghost use Rattle.text.specs.Refusing.{Refuses};

use meaning::{Figures, Refusal, Section};
use sections::Names;

// Writes the text of figures, with the names that begin the rows of a section, at the front of a buffer that holds it; a shorter one is left as it is. The length is that of the text.
// These are any figures, whether or not a case has them: that they are those of the case in the file is what `sheet::write` promises.
// The text is made aside first, in room for any.
pub fn write_figures(figures: Figures, file: &[u8], rows: Section, out: &mut [u8]) -> usize
    ensures { Fitted (text_of figures file.now rows) out.old out.new result }
{
    let names = Names { file, rows };
    if sections::sized(&figures, &names) {
        let mut aside = [0u8; sections::ROOM];
        let length = sections::put_figures(&mut aside, &figures, &names);
        if out.len() < length {
            return length;
        }
        return put::put_bytes(out, 0, &aside[..length]);
    }
    0
}

// A buffer of so many bytes holds the line of any refusal.
const REFUSAL_ROOM: usize = 96;

// Writes the line of a refusal at the front of a buffer of at least 96 bytes, which holds any; a shorter one is left as it is, and the length is then 0.
pub fn refuse(cause: Refusal, out: &mut [u8]) -> usize
    ensures { Refuses cause out.old out.new result }
{
    if out.len() < REFUSAL_ROOM {
        return 0;
    }
    let line = lines::refused_line(answers::of_refusal(cause));
    put::put_line(out, 0, &line)
}
