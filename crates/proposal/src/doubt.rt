// 02, 15, and 01, 11: circuits with a length in doubt.
ghost use Rattle.std.specs.Prelude.{◌≡◌};
ghost use Rattle.proposal.specs.Case.{backgrounds_in, directions_in};

use meaning::{Judgement, Refusal};
use numbers::Heading;

// 15: the lowest circuit with a length whose background is in doubt.
pub fn backgrounds(lengths: &[u64; 512], headings: &[Heading; 512]) -> Judgement
    ensures { result ≡ backgrounds_in lengths.now headings.now }
{
    let row = numbers::first_doubtful(lengths, *headings);
    if row < 512 {
        return Err(Refusal::BackgroundInDoubt(row + 1));
    }
    Ok(())
}

// 11: the lowest circuit with a length whose own base flow is in doubt, with the background that it counts for.
pub fn directions(lengths: &[u64; 512], headings: &[Heading; 512]) -> Judgement
    ensures { result ≡ directions_in lengths.now headings.now }
{
    let row = numbers::first_in_doubt(lengths, *headings);
    if row < 512 {
        let heading = headings[row];
        let background = numbers::background_of(heading.counting);
        return Err(Refusal::DirectionInDoubt(background, row + 1));
    }
    Ok(())
}
