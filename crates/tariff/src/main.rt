// Reads one case from standard input, and a share file where there is one, and prints its sheet, or its refusal. It always ends with status 0: a read or a write that fails is told on standard error.
#![tactic(auto)]

ghost use Rattle.std.specs.Prelude.{◌<◌, ◌≤◌, IsNone, length, take};
ghost use Rattle.std.specs.Io.KnownBytes.{Consumes, IsAtEnd};

use std::io::{ErrorKind, Read};
use std::rt::Files;
use std::{fs, io};

// How many bytes were read, and why opening or the last read failed, if it did.
#[derive(Clone, Copy)]
struct Input {
    count: usize,
    failure: Option<io::Error>,
}

// Reads until the buffer is full, the input ends or a read fails. What stands in front is what was read, and all that there was, unless the buffer is full or a read failed.
fn read_input<R: Read>(from: &mut R, buffer: &mut [u8]) -> Input
    ensures count { result.count ≤ length buffer.new }
    ensures front { Consumes (R.remaining from.old) (R.remaining from.new) (take result.count buffer.new) }
    ensures whole { IsNone result.failure → result.count < length buffer.new → IsAtEnd (R.remaining from.new) }
{
    let mut count = 0;
    // No `for`: how much a read gives is not known before.
    while count < buffer.len() {
        match from.read(&mut buffer[count..]) {
            Ok(0) => break,
            Ok(more) => count += more,
            Err(error) => return Input {
                count,
                failure: Some(error),
            },
        }
    }
    Input {
        count,
        failure: None,
    }
}

// Tells a failure on standard error. Where that fails too, nothing is left to tell it on.
fn tell(rt: &impl Eprint, what: &str, error: io::Error) {
    let _ = eprintln!(rt; "tariff: {what}: {error}");
}

// 02, request 6: the file `share.bin` of the current folder; nothing where there is none. Any other failure is told, and then no sheet is printed.
fn read_share(rt: &(impl Files + Eprint), buffer: &mut [u8]) -> Input
    ensures { result.count ≤ length buffer.new }
{
    match fs::open(rt, "share.bin") {
        Ok(mut file) => {
            let read = read_input(&mut file, buffer);
            if let Some(error) = read.failure {
                tell(rt, "reading share.bin", error);
            }
            read
        }
        Err(error) if error.kind() == ErrorKind::NotFound => Input {
            count: 0,
            failure: None,
        },
        Err(error) => {
            tell(rt, "opening share.bin", error);
            Input {
                count: 0,
                failure: Some(error),
            }
        }
    }
}

// Nothing is decided here: `output::print` takes the very buffers that are read into and how much of them was filled, and gives the bytes to write and their
// count. A read of the case that fails ends the input. No whole file fills its buffer, so what is read of a longer input is refused as 1, as all of it would be;
// and no sound share file fills its own, so what is read of a longer one is a wrong length.
fn main(rt: HostRuntime) {
    let mut input = [0u8; 65536];
    let read = read_input(&mut rt.stdin(), &mut input);
    if let Some(error) = read.failure {
        tell(&rt, "reading standard input", error);
    }
    let mut share = [0u8; 256];
    let shared = read_share(&rt, &mut share);
    if shared.failure.is_some() {
        return;
    }
    let printed = output::print(&input, read.count, &share, shared.count);
    if let Err(error) = rt.stdout().write_all(&printed.bytes[..printed.length]) {
        tell(&rt, "writing to standard output", error);
    }
}
