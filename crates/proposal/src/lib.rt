// A case judged: refusals 1 to 11 of document 01 and 13 to 16 of 02, in their order. Proposed solutions are judged once over supply and offset.
#![tactic(auto)]

mod case;
mod doubt;
mod kernel;
mod order;
mod solution;

ghost use Rattle.std.specs.Prelude.{length};
ghost use Rattle.meaning.specs.Answers.{yields};
ghost use Rattle.meaning.specs.Study.{lent};
ghost use Rattle.tables.specs.Order.{frame_stage};
ghost use Rattle.tables.specs.Opens.{Columns};
ghost use Rattle.proposal.specs.Judges.{Judges};

use meaning::{Judgement, Solutions};
use tables::{Lengths, Opened};

// Reads a file once, judges its tables, then the share file and then the runs of its edition: what stops the case first. Its columns are in the room that was lent for them; of a case that the tables stop, those of the tables that were read.
pub fn open(file: &[u8], runs: &Solutions, share: &[u8], room: &mut Opened) -> Judgement
    ensures judged { Judges file.now (lent runs.now) share.now (yields result room.new) }
    ensures columns { Columns (frame_stage file.now (λ s. length (lent runs.now s))) file.now room.old room.new }
{
    tables::open(file, Lengths::of(runs), room)?;
    case::share_stage(room, share)?;
    let k = case::case_of(room);
    order::proposals(&k, runs)
}
