// The library as C and Rust call it: a slice is a pointer and a count there, and an answer is four numbers. The crate wirepulley_c exports these functions:
// six and not two with optional runs, since the C interface has these names and parameters.
#![tactic(auto)]

ghost use Rattle.std.specs.Prelude.{[]};
ghost use Rattle.meaning.specs.Study.{runs_of, three_runs};
ghost use Rattle.meaning.specs.Outcome.{answer_of};
ghost use Rattle.meaning.specs.Calls.{Tells, ToldKept};

use meaning::{Answer, Solutions};

// Tells an answer in four numbers, and gives the first of them.
fn tell(answer: Answer, numbers: &mut [u64; 4]) -> u64
    ensures { Tells answer numbers.new result }
{
    let carried = answers::values(answer);
    let number = carried.number as u64;
    *numbers = [
        number,
        carried.system as u64,
        carried.row as u64,
        carried.length as u64,
    ];
    number
}

// Judges a case of edition 1 and writes its sheet: 01's number (0 where accepted), the sheet's buffer and the answer's four numbers, of any bytes, runs and buffer.
// It lends no run for peak, so a case of edition 2 is refused as 1.
pub fn wirepulley_write(
    file: &[u8],
    base: &[i64],
    wider: &[i64],
    local: &[i64],
    out: &mut [u8],
    numbers: &mut [u64; 4],
) -> u64
    ensures { ToldKept (record { file = file.now; runs = three_runs base.now wider.now local.now; share = []; before = out.old; result = result; after = out.new; numbers = numbers.new }) }
{
    wirepulley_write_five(file, base, wider, local, &[], &[], out, numbers)
}

// The same for a case of either edition: peak's runs are empty in edition 1.
pub fn wirepulley_write_five(
    file: &[u8],
    base: &[i64],
    wider: &[i64],
    local: &[i64],
    peak_base: &[i64],
    peak_wider: &[i64],
    out: &mut [u8],
    numbers: &mut [u64; 4],
) -> u64
    ensures { ToldKept (record { file = file.now; runs = runs_of base.now wider.now local.now peak_base.now peak_wider.now; share = []; before = out.old; result = result; after = out.new; numbers = numbers.new }) }
{
    wirepulley_write_shared(
        file,
        base,
        wider,
        local,
        peak_base,
        peak_wider,
        &[],
        out,
        numbers,
    )
}

// The same with the bytes of a share file (02, request 6), none for no file; it counts in edition 2 alone.
pub fn wirepulley_write_shared(
    file: &[u8],
    base: &[i64],
    wider: &[i64],
    local: &[i64],
    peak_base: &[i64],
    peak_wider: &[i64],
    share: &[u8],
    out: &mut [u8],
    numbers: &mut [u64; 4],
) -> u64
    ensures { ToldKept (record { file = file.now; runs = runs_of base.now wider.now local.now peak_base.now peak_wider.now; share = share.now; before = out.old; result = result; after = out.new; numbers = numbers.new }) }
{
    let runs = Solutions {
        base,
        wider,
        local,
        peak_base,
        peak_wider,
    };
    let answer = sheet::write(file, &runs, share, out);
    tell(answer, numbers)
}

// Judges a case of edition 1 for a caller without a buffer: what `wirepulley_write` answers with room enough, the sheet's length included.
pub fn wirepulley_judge(
    file: &[u8],
    base: &[i64],
    wider: &[i64],
    local: &[i64],
    numbers: &mut [u64; 4],
) -> u64
    ensures { Tells (answer_of file.now (three_runs base.now wider.now local.now) []) numbers.new result }
{
    wirepulley_judge_five(file, base, wider, local, &[], &[], numbers)
}

// The same for a case of either edition.
pub fn wirepulley_judge_five(
    file: &[u8],
    base: &[i64],
    wider: &[i64],
    local: &[i64],
    peak_base: &[i64],
    peak_wider: &[i64],
    numbers: &mut [u64; 4],
) -> u64
    ensures { Tells (answer_of file.now (runs_of base.now wider.now local.now peak_base.now peak_wider.now) []) numbers.new result }
{
    wirepulley_judge_shared(
        file,
        base,
        wider,
        local,
        peak_base,
        peak_wider,
        &[],
        numbers,
    )
}

// The same with a share file.
pub fn wirepulley_judge_shared(
    file: &[u8],
    base: &[i64],
    wider: &[i64],
    local: &[i64],
    peak_base: &[i64],
    peak_wider: &[i64],
    share: &[u8],
    numbers: &mut [u64; 4],
) -> u64
    ensures { Tells (answer_of file.now (runs_of base.now wider.now local.now peak_base.now peak_wider.now) share.now) numbers.new result }
{
    let runs = Solutions {
        base,
        wider,
        local,
        peak_base,
        peak_wider,
    };
    let answer = sheet::judge(file, &runs, share);
    tell(answer, numbers)
}
