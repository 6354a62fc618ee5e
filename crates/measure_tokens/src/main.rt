// Reads the tokens of the sheet on standard input through a small window, as often as its argument says, and prints how
// many there were. The time goes to standard error. `measure_lexer` reads its sheet and its argument alike; a library for that
// would be longer than the few lines.
#![tactic(auto)]

use characters::char_stream::InputData;
use lexer::sheet_lexer::SheetLexer;
use refusals::Refusal;
use std::env;
use std::io::Read;
use std::time::Instant;
use streams::int_stream::EOF;
use texts::utf8_text::Utf8Text;
use token_streams::token_stream::{UnbufferedTokenStream, calls};

// What was met on the way through a text: its tokens without the EOF, and how many of them one of their own type follows.
#[derive(Clone, Copy)]
struct Met {
    tokens: u64,
    pairs: u64,
}

// Goes through a text with a look at the token under the cursor and at the one after it.
fn read(text: Utf8Text, met: &mut Met) -> Result<(), Refusal> {
    let mut stream = UnbufferedTokenStream::new_unbuffered(SheetLexer::new(text));
    stream.open(16)?;
    // A text has no more tokens than bytes, and the EOF.
    for _ in 0..65_537 {
        let under = stream.la(1)?;
        if under == EOF {
            break;
        }
        if stream.lt(2)?.is_some_and(|next| next.token_type == under) {
            met.pairs = met.pairs.wrapping_add(1);
        }
        stream.consume()?;
        met.tokens = met.tokens.wrapping_add(1);
    }
    Ok(())
}

fn run(rt: &HostRuntime) -> anyhow::Result<()> {
    let mut rounds = 1u32;
    for word in env::args(rt)?.skip(1) {
        rounds = word.as_str().parse::<u32>()?;
    }
    let mut sheet = Vec::new(rt.alloc());
    rt.stdin().take(65_537).read_to_end(&mut sheet)?;
    let bytes = sheet.as_slice();
    let mut met = Met {
        tokens: 0,
        pairs: 0,
    };
    let start = Instant::now(rt)?;
    for _ in 0..rounds {
        if let Err(refusal) = read(Utf8Text::new(bytes), &mut met) {
            println!(rt; "REFUSED {}", refusal.number())?;
            return Ok(());
        }
    }
    let spent = start.elapsed(rt)?;
    let size = bytes.len();
    let Met { tokens, pairs } = met;
    println!(rt;
        "{size} bytes, {rounds} rounds, {tokens} tokens before the EOF, {pairs} followed by one of their type"
    )?;
    eprintln!(rt; "{spent:?}")?;
    Ok(())
}

fn main(rt: HostRuntime) -> anyhow::Result<()> {
    run(&rt)
}
