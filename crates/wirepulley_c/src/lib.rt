// What C and Rust link: each function is the one of the crate wirepulley of the same name, with its contract.
#![tactic(auto)]

ghost use Rattle.std.specs.Prelude.{[]};
ghost use Rattle.meaning.specs.Study.{runs_of, three_runs};
ghost use Rattle.meaning.specs.Outcome.{answer_of};
ghost use Rattle.meaning.specs.Calls.{Tells, ToldKept};

// Judges a case of edition 1 and writes its sheet: 01's number (0 where accepted), the sheet's buffer and the answer's four numbers, of any bytes, runs and buffer.
// It lends no run for peak, so a case of edition 2 is refused as 1.
#[unsafe(no_mangle)]
pub extern "C" fn wirepulley_write(
    file: &[u8],
    base: &[i64],
    wider: &[i64],
    local: &[i64],
    out: &mut [u8],
    numbers: &mut [u64; 4],
) -> u64
    ensures { ToldKept (record { file = file.now; runs = three_runs base.now wider.now local.now; share = []; before = out.old; result = result; after = out.new; numbers = numbers.new }) }
{
    wirepulley::wirepulley_write(file, base, wider, local, out, numbers)
}

// The same for a case of either edition: peak's runs are empty in edition 1.
#[unsafe(no_mangle)]
pub extern "C" fn wirepulley_write_five(
    file: &[u8],
    base: &[i64],
    wider: &[i64],
    local: &[i64],
    peak_base: &[i64],
    peak_wider: &[i64],
    out: &mut [u8],
    numbers: &mut [u64; 4],
) -> u64
    ensures { ToldKept (record { file = file.now; runs = runs_of base.now wider.now local.now peak_base.now peak_wider.now; share = []; before = out.old; result = result; after = out.new; numbers = numbers.new }) }
{
    wirepulley::wirepulley_write_five(
        file, base, wider, local, peak_base, peak_wider, out, numbers,
    )
}

// The same with the bytes of a share file (02, request 6), none for no file; it counts in edition 2 alone.
#[unsafe(no_mangle)]
pub extern "C" fn wirepulley_write_shared(
    file: &[u8],
    base: &[i64],
    wider: &[i64],
    local: &[i64],
    peak_base: &[i64],
    peak_wider: &[i64],
    share: &[u8],
    out: &mut [u8],
    numbers: &mut [u64; 4],
) -> u64
    ensures { ToldKept (record { file = file.now; runs = runs_of base.now wider.now local.now peak_base.now peak_wider.now; share = share.now; before = out.old; result = result; after = out.new; numbers = numbers.new }) }
{
    wirepulley::wirepulley_write_shared(
        file, base, wider, local, peak_base, peak_wider, share, out, numbers,
    )
}

// Judges a case of edition 1 for a caller without a buffer: what `wirepulley_write` answers with room enough, the sheet's length included.
#[unsafe(no_mangle)]
pub extern "C" fn wirepulley_judge(
    file: &[u8],
    base: &[i64],
    wider: &[i64],
    local: &[i64],
    numbers: &mut [u64; 4],
) -> u64
    ensures { Tells (answer_of file.now (three_runs base.now wider.now local.now) []) numbers.new result }
{
    wirepulley::wirepulley_judge(file, base, wider, local, numbers)
}

// The same for a case of either edition.
#[unsafe(no_mangle)]
pub extern "C" fn wirepulley_judge_five(
    file: &[u8],
    base: &[i64],
    wider: &[i64],
    local: &[i64],
    peak_base: &[i64],
    peak_wider: &[i64],
    numbers: &mut [u64; 4],
) -> u64
    ensures { Tells (answer_of file.now (runs_of base.now wider.now local.now peak_base.now peak_wider.now) []) numbers.new result }
{
    wirepulley::wirepulley_judge_five(file, base, wider, local, peak_base, peak_wider, numbers)
}

// The same with a share file.
#[unsafe(no_mangle)]
pub extern "C" fn wirepulley_judge_shared(
    file: &[u8],
    base: &[i64],
    wider: &[i64],
    local: &[i64],
    peak_base: &[i64],
    peak_wider: &[i64],
    share: &[u8],
    numbers: &mut [u64; 4],
) -> u64
    ensures { Tells (answer_of file.now (runs_of base.now wider.now local.now peak_base.now peak_wider.now) share.now) numbers.new result }
{
    wirepulley::wirepulley_judge_shared(
        file, base, wider, local, peak_base, peak_wider, share, numbers,
    )
}
