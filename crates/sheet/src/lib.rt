// The library's entry: a case judged, its figures made, its sheet written into the lent buffer.
#![tactic(auto)]

ghost use Rattle.std.specs.Prelude.{◌≡◌, length};
ghost use Rattle.meaning.specs.Study.{lent};
ghost use Rattle.meaning.specs.Outcome.{Settled, buffer_stage, settled_by, answer_of};
ghost use Rattle.meaning.specs.Calls.{Kept};
ghost use Rattle.layout.specs.Readable.{section_in};
ghost use Rattle.text.specs.SheetText.{text_of};

use meaning::{Answer, Figures, Refusal, Solutions};

// Writes the text of figures where the buffer holds it, and refuses a shorter buffer as 12.
fn written(figures: Figures, file: &[u8], out: &mut [u8]) -> Answer
    ensures { ◌≡◌ {A = Settled} (record { answer = result; buffer = out.new }) (settled_by (buffer_stage (text_of figures file.now (section_in file.now 1)) out.old) (text_of figures file.now (section_in file.now 1)) out.old) }
{
    let nodes = layout::section(file, layout::NODES);
    let length = text::write_figures(figures, file, nodes, out);
    if out.len() < length {
        return Err(Refusal::ShortBuffer);
    }
    Ok(length)
}

// Judges a case and writes its sheet: the answer, and the buffer afterwards, of any bytes, runs, share file (no bytes for none) and buffer. Nothing is written before all is judged
// and the sheet's length known.
pub fn write(file: &[u8], runs: &Solutions, share: &[u8], out: &mut [u8]) -> Answer
    ensures { Kept (record { file = file.now; runs = lent runs.now; share = share.now; before = out.old; answer = result; after = out.new }) }
{
    // Matched where they stand: `?` copies what it lets through, and figures are large.
    match charges::charge(file, runs, share) {
        Err(cause) => Err(cause),
        Ok(figures) => written(figures, file, out),
    }
}

// How long the text of figures is.
fn text_length(figures: Figures, file: &[u8]) -> usize
    ensures { result ≡ length (text_of figures file.now (section_in file.now 1)) }
{
    let mut none = [0u8; 0];
    let nodes = layout::section(file, layout::NODES);
    text::write_figures(figures, file, nodes, &mut none)
}

// Judges a case for a caller without a buffer: what `write` answers with room enough, the sheet's length included.
pub fn judge(file: &[u8], runs: &Solutions, share: &[u8]) -> Answer
    ensures { result ≡ answer_of file.now (lent runs.now) share.now }
{
    match charges::charge(file, runs, share) {
        Err(cause) => Err(cause),
        Ok(figures) => Ok(text_length(figures, file)),
    }
}
