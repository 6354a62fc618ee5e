// Lexes the sheet on standard input as often as its argument says, and prints how many tokens came. The time goes to standard error.
#![tactic(auto)]

use characters::char_stream::InputData;
use lexer::sheet_lexer::SheetLexer;
use std::env;
use std::io::Read;
use std::time::Instant;
use texts::utf8_text::Utf8Text;
use tokens::token_source::TokenSource;

// A text has no more tokens than one for each byte, and the EOF.
const MOST_PULLED: u64 = 65_537;

// How many tokens a text has, the EOF included.
fn count(text: Utf8Text) -> u64 {
    let mut lexer = SheetLexer::new(text);
    for tokens in 1..MOST_PULLED {
        if lexer.next_token().is_eof() {
            return tokens;
        }
    }
    MOST_PULLED
}

fn run(rt: &HostRuntime) -> anyhow::Result<()> {
    let mut rounds = 1u32;
    for word in env::args(rt)?.skip(1) {
        rounds = word.as_str().parse::<u32>()?;
    }
    let mut sheet = Vec::new(rt.alloc());
    rt.stdin().take(65_537).read_to_end(&mut sheet)?;
    let bytes = sheet.as_slice();
    let start = Instant::now(rt)?;
    let mut tokens = 0u64;
    for _ in 0..rounds {
        tokens = tokens.wrapping_add(count(Utf8Text::new(bytes)));
    }
    let spent = start.elapsed(rt)?;
    println!(rt; "{} bytes, {rounds} rounds, {tokens} tokens", bytes.len())?;
    eprintln!(rt; "{spent:?}")?;
    Ok(())
}

fn main(rt: HostRuntime) -> anyhow::Result<()> {
    run(&rt)
}
