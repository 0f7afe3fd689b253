// The entry called with KILN, lent buffers of several lengths, runs of wrong lengths, peak's too, and share files: prints each answer's values, and whether the buffer changed.
// Then the line of a refusal, into a buffer that is long enough and one that is a byte too short; and walks along ends that no sound table has.
#![tactic(auto)]

ghost use Rattle.std.specs.Prelude.{◌==◌, ◌≡◌, ◌≤◌, count_by, IfOk, length};

use meaning::{Refusal, Solutions};
use std::io;
use std::io::Read;

// A case, a run for each of its systems, and its share file.
#[derive(Clone, Copy)]
struct Case<'a> {
    file: &'a [u8],
    base: &'a [i64],
    wider: &'a [i64],
    local: &'a [i64],
    peak_base: &'a [i64],
    peak_wider: &'a [i64],
    share: &'a [u8],
}

// Six numbers of a solution, and a seventh that is one too many.
fn run_at(file: &[u8], at: usize) -> [i64; 7] {
    let mut run = [0; 7];
    if at <= 1000 {
        for k in 0..6 {
            run[k] = fields::i64_at(file, at + 8 * k);
        }
    }
    run
}

// How many bytes of a buffer are still 7.
fn sevens(out: &[u8]) -> usize
    ensures { result ≡ count_by (λ b. b == 7) out.now }
{
    out.iter().filter(|b| **b == 7).count()
}

// A number and a space.
fn print_number(rt: &impl Print, number: usize) -> io::Result<()> {
    print!(rt; "{number} ")
}

// A length, and how many bytes of the buffer are as they were, to the end of the line.
fn print_length(rt: &impl Print, length: usize, out: &[u8]) -> io::Result<()> {
    let same = sevens(out);
    println!(rt; "{length}, as before: {same}")
}

// One call: what it answers, and how much of the buffer is as it was.
fn call(rt: &impl Print, case: Case, out: &mut [u8]) -> io::Result<()> {
    let Case {
        file,
        base,
        wider,
        local,
        peak_base,
        peak_wider,
        share,
    } = case;
    let runs = Solutions {
        base,
        wider,
        local,
        peak_base,
        peak_wider,
    };
    let answer = sheet::write(file, &runs, share, out);
    let carried = answers::values(answer);
    print_number(rt, carried.number)?;
    print_number(rt, carried.system)?;
    print_number(rt, carried.row)?;
    print_length(rt, carried.length, out)
}

// A call with a buffer of 200 bytes.
fn call_with_room(rt: &impl Print, case: Case) -> io::Result<()> {
    let mut out = [7u8; 200];
    call(rt, case, &mut out)
}

// An exact fit, one byte too few, no byte, and more than enough.
fn buffers(rt: &impl Print, case: Case) -> io::Result<()> {
    let mut exact = [7u8; 117];
    call(rt, case, &mut exact)?;
    rt.write_all(&exact)?;
    let mut short = [7u8; 116];
    call(rt, case, &mut short)?;
    let mut none = [7u8; 0];
    call(rt, case, &mut none)?;
    call_with_room(rt, case)
}

// A run too short, one too long, an empty one, two exchanged, and an empty file.
fn wrong_runs(rt: &impl Print, case: Case, long: &[i64]) -> io::Result<()> {
    let Case {
        file,
        base,
        wider,
        local,
        ..
    } = case;
    if base.len() < 5 {
        return Ok(());
    }
    call_with_room(
        rt,
        Case {
            base: &base[..5],
            ..case
        },
    )?;
    call_with_room(
        rt,
        Case {
            wider: long,
            ..case
        },
    )?;
    call_with_room(
        rt,
        Case {
            local: &local[..0],
            ..case
        },
    )?;
    call_with_room(
        rt,
        Case {
            base: wider,
            wider: base,
            ..case
        },
    )?;
    call_with_room(
        rt,
        Case {
            file: &file[..0],
            ..case
        },
    )
}

// A share file, which edition 1 does not judge: one byte of it, and all of the case.
fn share_files(rt: &impl Print, case: Case) -> io::Result<()> {
    let mut out = [7u8; 200];
    call(
        rt,
        Case {
            share: b"s",
            ..case
        },
        &mut out,
    )?;
    call(
        rt,
        Case {
            share: case.file,
            ..case
        },
        &mut out,
    )
}

// Runs for peak, which edition 1 has not: one, the other, and both; then share files.
fn peak_runs(rt: &impl Print, case: Case) -> io::Result<()> {
    let mut out = [7u8; 200];
    let Case { base, wider, .. } = case;
    call(
        rt,
        Case {
            peak_base: base,
            ..case
        },
        &mut out,
    )?;
    call(
        rt,
        Case {
            peak_wider: wider,
            ..case
        },
        &mut out,
    )?;
    call(
        rt,
        Case {
            peak_base: base,
            peak_wider: wider,
            ..case
        },
        &mut out,
    )?;
    share_files(rt, case)
}

// The line of a refusal: how long it is, and how much of the buffer is as it was.
fn refuse(rt: &impl Print, out: &mut [u8]) -> io::Result<()> {
    let length = text::refuse(Refusal::ShortBuffer, out);
    print_length(rt, length, out)
}

// That line, into a buffer that holds any and into one that is a byte shorter.
fn lines(rt: &impl Print) -> io::Result<()> {
    let mut room = [7u8; 96];
    refuse(rt, &mut room)?;
    let mut short = [7u8; 95];
    refuse(rt, &mut short)
}

// A number, where it is in the set.
fn print_member(rt: &impl Print, set: [u64; 4], n: usize) -> io::Result<()> {
    if bits::has(set, n) {
        print_number(rt, n)?;
    }
    Ok(())
}

// The numbers of a set, past its last word too.
fn print_set(rt: &impl Print, set: [u64; 4]) -> io::Result<()> {
    for n in 0..600 {
        print_member(rt, set, n)?;
    }
    println!(rt; "")
}

// The nodes that a walk reaches along two circuits, a to b and c to d.
fn walk(
    rt: &impl Print,
    nodes: usize,
    reference: usize,
    a: usize,
    b: usize,
    c: usize,
    d: usize,
) -> io::Result<()> {
    let mut first = [0usize; 512];
    let mut second = [0usize; 512];
    first[0] = a;
    second[0] = b;
    first[1] = c;
    second[1] = d;
    print_set(rt, walk::reached(nodes, reference, 2, &first, &second))
}

// Ends that are no nodes lead nowhere, from a reference that is no node nothing is reached, and counts may pass 256 nodes and 512 circuits.
fn walks(rt: &impl Print) -> io::Result<()> {
    walk(rt, 5, 4, 1, 0, 4, 1)?;
    walk(rt, 5, 1, 1, 9, 9, 2)?;
    walk(rt, 65, 64, 65, 64, 0, 64)?;
    walk(rt, 256, 0, 255, 0, 256, 255)?;
    walk(rt, 1000, 255, 256, 255, 319, 255)?;
    walk(rt, 5, 5, 5, 1, 5, 2)?;
    walk(rt, 0, 0, 0, 1, 1, 2)?;
    let ends = [1usize; 512];
    print_set(rt, walk::reached(2, 0, 1000, &ends, &ends))
}

// Reads until the buffer is full or the input ends.
fn read_full<R: Read>(from: &mut R, buffer: &mut [u8]) -> io::Result<usize>
    ensures { IfOk result (λ count. count ≤ length buffer.new) }
{
    let mut count = 0;
    // No `for`: how much a read gives is not known before.
    while count < buffer.len() {
        let more = from.read(&mut buffer[count..])?;
        if more == 0 {
            break;
        }
        count += more;
    }
    Ok(count)
}

fn main(rt: HostRuntime) -> io::Result<()> {
    let mut input = [0u8; 4096];
    let read = read_full(&mut rt.stdin(), &mut input)?;
    let file = &input[..read];
    let base = run_at(file, 332);
    let wider = run_at(file, 380);
    let local = run_at(file, 428);
    let case = Case {
        file,
        base: &base[..6],
        wider: &wider[..6],
        local: &local[..6],
        peak_base: &[],
        peak_wider: &[],
        share: &[],
    };
    buffers(&rt, case)?;
    wrong_runs(&rt, case, &wider)?;
    peak_runs(&rt, case)?;
    lines(&rt)?;
    walks(&rt)
}
