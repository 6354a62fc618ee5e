// Lists sheets that are easy to get wrong, of every kind of text. What is printed is compared with a stored output.
#![tactic(auto)]

use characters::char_stream::InputData;
use lexer::sheet_lexer::SheetLexer;
use listing::lines::list;
use listing::sheet::{Stop, list_sheet};
use refusals::Refusal;
use std::alloc::Global;
use std::io::Write;
use texts::units::{CodePoints8, CodePoints16, CodePoints32, Unit};
use tokens::token_source::TokenSource;

// The listing of a sheet, or its refusal.
fn listed(heap: Global, sheet: &[u8]) -> anyhow::Result<Result<Vec<u8>, Refusal>> {
    match list_sheet(heap, sheet) {
        Ok(lines) => Ok(Ok(lines)),
        Err(Stop::Refused(refusal)) => Ok(Err(refusal)),
        Err(stop) => Err(stop.into()),
    }
}

// The name of a sample, and its listing or its refusal.
fn show(rt: &HostRuntime, name: &str, sheet: &[u8]) -> anyhow::Result<()> {
    println!(rt; "-- {name}")?;
    match listed(rt.alloc(), sheet)? {
        Ok(lines) => rt.stdout().write_all(lines.as_slice())?,
        Err(refusal) => println!(rt; "REFUSED {}", refusal.number())?,
    }
    Ok(())
}

// The same for tokens of any source.
fn show_tokens<S: TokenSource + Drop>(
    rt: &HostRuntime,
    name: &str,
    source: S,
) -> anyhow::Result<()> {
    println!(rt; "-- {name}")?;
    let lines = list(rt.alloc(), source)?;
    rt.stdout().write_all(lines.as_slice())?;
    Ok(())
}

// How long the listing of so many letters is, or its refusal: the whole would fill pages.
fn show_many(rt: &HostRuntime, heap: Global, count: usize) -> anyhow::Result<()> {
    let sheet = vec![in heap; 97; count]?;
    match listed(heap, sheet.as_slice())? {
        Ok(lines) => println!(rt; "-- {count} letters: {} bytes", lines.len())?,
        Err(refusal) => println!(rt; "-- {count} letters: REFUSED {}", refusal.number())?,
    }
    Ok(())
}

fn ends(rt: &HostRuntime) -> anyhow::Result<()> {
    show(rt, "nothing", b"")?;
    show(rt, "one symbol", b"7")?;
    show(rt, "no last line feed", b"TRIM 0.015")?;
    show(rt, "a remark up to the end", b"1 #2")?;
    show(rt, "a mark at the end", b"1#")?;
    show(rt, "line feeds alone", b"\n\n")?;
    show_many(rt, rt.alloc(), 65_536)?;
    show_many(rt, rt.alloc(), 65_537)
}

fn numbers(rt: &HostRuntime) -> anyhow::Result<()> {
    show(rt, "a point with no digit after it", b"1. 2")?;
    show(rt, "a point with no digit before it", b".5")?;
    show(rt, "two points", b"1.2.3")?;
    show(rt, "a comma and a sign", b"-1,5")?;
    show(rt, "letters and digits", b"DC04")
}

fn remarks(rt: &HostRuntime) -> anyhow::Result<()> {
    show(rt, "a value in a remark", b"#TRIM 0.5\n0.1")?;
    show(rt, "a mark in a remark", b"##1#2\n3")?;
    show(rt, "a remark right after a value", b"1.5#x")?;
    show(rt, "carriage return and line feed", b"1 #a\r\n2\r\n")?;
    show(rt, "tab and backslash in a remark", b"#a\t\\b")?;
    show(rt, "space, tab, carriage return in a row", b" \t\r1")
}

fn wide(rt: &HostRuntime) -> anyhow::Result<()> {
    show(rt, "letters beyond ASCII", b"\xC3\xBC1 #\xC3\xBC")?;
    show(rt, "a truncated form at the end", b"1 #\xC3")?;
    show(rt, "a surrogate in a remark", b"#\xED\xA0\x80")?;
    show_tokens(
        rt,
        "bytes as 8-bit units",
        SheetLexer::new(CodePoints8::new(b"1 #\xC3\xBC")),
    )?;
    show_tokens(
        rt,
        "a surrogate among 16-bit units",
        SheetLexer::new(CodePoints16::new(&[49, 0xD800, 35, 0xDFFF, 10])),
    )?;
    show_tokens(
        rt,
        "32-bit units",
        SheetLexer::new(CodePoints32::new(&[35, 0x1F600, 10, 0x7FFF_FFFF])),
    )?;
    show_tokens(
        rt,
        "a 32-bit unit that is refused",
        SheetLexer::new(CodePoints32::new(&[49, 0x8000_0000])),
    )
}

fn run(rt: &HostRuntime) -> anyhow::Result<()> {
    ends(rt)?;
    numbers(rt)?;
    remarks(rt)?;
    wide(rt)
}

fn main(rt: HostRuntime) -> anyhow::Result<()> {
    run(&rt)
}
