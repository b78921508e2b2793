//! The program `slots`: reads a lease sheet from standard input, and prints each client's slot count and first slot.
//! A refused sheet prints only its refusal line, and the program then ends with status 1.
//! Main promise: none of its own; `sheet::read` judges the sheet, `listing` makes the text, and `main` reads and writes bytes.
#![tactic(auto)]

ghost use Rattle.std.specs.Prelude.{◌≤◌, length, IfOk};

use calendar::Calendar;
use listing::{LISTING_LEN, REFUSAL_LEN};
use std::io;
use std::io::{ErrorKind, Read, Write};
use std::process::ExitCode;

// One byte more than the longest sheet, so that a longer one is seen to be too long.
const ROOM: usize = sheet::LONGEST + 1;

// Reads into the places until the input ends or they are full, and answers how many bytes were read. A read that a signal interrupts is
// tried again; the reads are counted up to a number that no run reaches, since each function must end. Not by the library's `copy`, whose
// buffer would take 8 KiB of stack, nor by `read_to_end`, which takes heap memory.
fn fill<R: Read>(input: &mut R, places: &mut [u8]) -> io::Result<usize>
    ensures { IfOk result (λ n. n ≤ length places.old) }
{
    let mut n = 0;
    for _ in 0..u64::MAX {
        if n == places.len() {
            break;
        }
        match input.read(&mut places[n..]) {
            Ok(0) => break,
            Ok(got) => n += got,
            Err(error) if error.kind() == ErrorKind::Interrupted => {}
            Err(error) => return Err(error),
        }
    }
    Ok(n)
}

fn main(rt: HostRuntime) -> io::Result<ExitCode> {
    let mut bytes = [0u8; ROOM];
    let n = fill(&mut rt.stdin(), &mut bytes)?;
    let mut calendar = Calendar::empty();
    match sheet::read(&bytes[..n], &mut calendar) {
        Ok(()) => {
            let mut text = [0u8; LISTING_LEN];
            let len = listing::listing(&calendar, &mut text);
            rt.stdout().write_all(&text[0..len])?;
            Ok(ExitCode::SUCCESS)
        }
        Err(refusal) => {
            let mut text = [0u8; REFUSAL_LEN];
            let len = listing::refusal_line(refusal.cause, refusal.line, &mut text);
            rt.stdout().write_all(&text[0..len])?;
            Ok(ExitCode::FAILURE)
        }
    }
}
