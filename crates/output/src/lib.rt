// The program's whole output, from the bytes that it read: the sheet, or why there is none.
#![tactic(auto)]

mod runs;

ghost use Rattle.std.specs.Prelude.{◌≡◌, true, take};
ghost use Rattle.meaning.specs.Study.{lent};
ghost use Rattle.meaning.specs.File.{file_whole, runs_in};
ghost use Rattle.meaning.specs.Outcome.{prints, refused_line};
ghost use Rattle.meaning.specs.Calls.{Prints};

use meaning::{Printed, Refusal, Solutions};

// A solution copied out of the file: its numbers, zeros behind them, and how many it has (there is no heap).
#[derive(Clone, Copy)]
struct Run {
    numbers: [i64; 768],
    count: usize,
}

// The line of a refusal.
fn refused(cause: Refusal) -> Printed
    ensures { Prints (refused_line cause) result }
{
    let mut bytes = [0u8; 17408];
    let length = text::refuse(cause, &mut bytes);
    Printed { length, bytes }
}

// What is printed for a file with its own solutions. No sheet is longer than the buffer, so 12 never comes of it.
fn with_runs(file: &[u8], runs: &Solutions, share: &[u8]) -> Printed
    requires { lent runs.now ≡ runs_in file.now }
    ensures { Prints (prints file.now share.now) result }
{
    let mut bytes = [0u8; 17408];
    match sheet::write(file, runs, share, &mut bytes) {
        Err(cause) => refused(cause),
        Ok(length) => Printed { length, bytes },
    }
}

// What is printed for a whole file: its solutions are copied out; those of a system that its edition has not are empty.
fn of_whole_file(file: &[u8], share: &[u8]) -> Printed
    requires { file_whole file.now ≡ true }
    ensures { Prints (prints file.now share.now) result }
{
    let base = runs::run_of(file, layout::BASE);
    let wider = runs::run_of(file, layout::WIDER);
    let local = runs::run_of(file, layout::LOCAL);
    let peak_base = runs::run_of(file, layout::PEAK_BASE);
    let peak_wider = runs::run_of(file, layout::PEAK_WIDER);
    let runs = Solutions {
        base: &base.numbers[0..base.count],
        wider: &wider.numbers[0..wider.count],
        local: &local.numbers[0..local.count],
        peak_base: &peak_base.numbers[0..peak_base.count],
        peak_wider: &peak_wider.numbers[0..peak_wider.count],
    };
    with_runs(file, &runs, share)
}

// What is printed for an input and a share file, of any bytes.
fn of_input(input: &[u8], share: &[u8]) -> Printed
    ensures { Prints (prints input.now share.now) result }
{
    if layout::whole(input) {
        return of_whole_file(input, share);
    }
    refused(Refusal::BadFile)
}

// The front of what was read into a buffer; a count past its end is all of it.
fn front(buffer: &[u8], count: usize) -> &[u8]
    ensures { result.now ≡ take count buffer.now }
{
    if count < buffer.len() {
        return &buffer[0..count];
    }
    buffer
}

// What the program prints when it has read `count` bytes of the case and `share_count` of the share file into its buffers; none of an absent file.
pub fn print<'a>(
    buffer: &'a [u8; 65536],
    count: usize,
    share: &'a [u8; 256],
    share_count: usize,
) -> Printed
    ensures { Prints (prints (take count buffer.now) (take share_count share.now)) result }
{
    let all: &[u8] = buffer;
    let all_share: &[u8] = share;
    of_input(front(all, count), front(all_share, share_count))
}
