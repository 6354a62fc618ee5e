// Whether samples of bytes are texts, and which code points they hold. Each line of standard input is a name and bytes in hexadecimal.
#![tactic(auto)]

use characters::char_stream::InputData;
use refusals::Refusal;
use std::alloc::{AllocError, Global};
use std::iter::successors;
use texts::utf8_text::Utf8Text;

// The bytes that the words of a line give; a word that is no byte is an error.
fn bytes_of(heap: Global, words: &str) -> anyhow::Result<Vec<u8>> {
    let mut bytes = Vec::new(heap);
    for word in words.split_whitespace() {
        bytes.push(u8::from_str_radix(word, 16)?)?;
    }
    Ok(bytes)
}

// The code points of a text, each in hexadecimal after a space.
fn codes_of(heap: Global, text: &Utf8Text) -> Result<String, AllocError> {
    let mut codes = String::new(heap);
    let points = successors(text.code_point(0), |point| text.code_point(point.next));
    for point in points.take(text.len()) {
        write!(codes, " {:X}", point.code)?;
    }
    Ok(codes)
}

fn verdict(heap: Global, bytes: &[u8]) -> Result<String, AllocError> {
    match Utf8Text::check(bytes) {
        Ok(()) => format!(in heap; "ok{}", codes_of(heap, &Utf8Text::new(bytes))?),
        Err(refusal) => format!(in heap; "REFUSED {}", refusal.number()),
    }
}

// So many copies of a byte: only the verdict's first word is of use.
fn verdict_of_many(heap: Global, byte: u8, count: usize) -> Result<&'static str, AllocError> {
    let bytes = vec![in heap; byte; count]?;
    Ok(match Utf8Text::check(bytes.as_slice()) {
        Ok(()) => "ok",
        Err(Refusal::TooLong) => "too long",
        Err(_) => "refused otherwise",
    })
}

fn run(rt: &HostRuntime) -> anyhow::Result<()> {
    let heap = rt.alloc();
    for line in rt.lines(heap) {
        let line = line?;
        if let Some((name, words)) = line.as_str().split_once(": ") {
            let bytes = bytes_of(heap, words)?;
            println!(rt; "{name}: {}", verdict(heap, bytes.as_slice())?)?;
        }
    }
    let most = verdict_of_many(heap, 0x41, 65_536)?;
    let more = verdict_of_many(heap, 0x41, 65_537)?;
    let bad = verdict_of_many(heap, 0xFF, 65_537)?;
    println!(rt; "65,536 letters: {most}")?;
    println!(rt; "65,537 letters: {more}")?;
    println!(rt; "65,537 bytes of no form: {bad}")?;
    Ok(())
}

fn main(rt: HostRuntime) -> anyhow::Result<()> {
    run(&rt)
}
