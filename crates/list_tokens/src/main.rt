// Reads a sheet from standard input and prints its tokens.
#![tactic(auto)]

use listing::sheet::{Stop, list_sheet};
use refusals::Refusal;
use std::io;
use std::io::{Read, Write};

// One byte more than a text may have: what lies past it changes nothing.
const READ: u64 = 65_537;

// The number is the answer, and the words are for whoever looks on.
fn print_refusal(rt: &HostRuntime, refusal: Refusal) -> io::Result<()> {
    println!(rt; "REFUSED {}", refusal.number())?;
    eprintln!(rt; "list-tokens: {refusal}")
}

fn main(rt: HostRuntime) -> io::Result<()> {
    let heap = rt.alloc();
    let mut sheet = Vec::new(heap);
    rt.stdin().take(READ).read_to_end(&mut sheet)?;
    match list_sheet(heap, sheet.as_slice()) {
        Ok(lines) => rt.stdout().write_all(lines.as_slice()),
        Err(Stop::Refused(refusal)) => print_refusal(&rt, refusal),
        Err(stop @ Stop::NoMemory) => {
            eprintln!(rt; "list-tokens: {stop}")?;
            Err(io::Error::from(io::ErrorKind::OutOfMemory))
        }
    }
}
