// Runs the call script on standard input, and prints what each call answered.
#![tactic(auto)]

ghost use Rattle.run_calls.specs.Shrinking.{Shrinks};

mod calls;
mod levels;
mod made;
mod printer;
mod session;
mod source;
mod text;

use crate::levels::run_lines;
use crate::made::Start;
use crate::session::{Exit, Session};
use crate::source::AnySource;
use crate::text::AnyText;
use input_streams::input_stream::InputStream;
use scripts::reading::read_script;
use std::alloc::AllocError;
use std::io::{Read, Write};
use token_streams::token_stream::UnbufferedTokenStream;

// A character stream over a text, up to a line that makes another stream.
fn run_chars<'a>(
    text: AnyText<'a>,
    session: &mut Session<'a>,
) -> Result<Option<Start<'a>>, AllocError>
    ensures lines { Shrinks result session.old.lines.rest.now session.new.lines.rest.now }
{
    let mut stream = InputStream::new(text);
    match run_lines(&mut stream, session, None)? {
        Some(Exit::Stream(start)) => Ok(Some(start)),
        _ => Ok(None),
    }
}

// An unbuffered stream over a source. Where it is closed, the source waits again.
fn run_unbuffered<'a>(
    source: AnySource<'a>,
    session: &mut Session<'a>,
) -> Result<Option<Start<'a>>, AllocError>
    ensures lines { Shrinks result session.old.lines.rest.now session.new.lines.rest.now }
{
    let mut stream = UnbufferedTokenStream::new_unbuffered(source);
    match run_lines(&mut stream, session, None)? {
        Some(Exit::Stream(start)) => Ok(Some(start)),
        Some(Exit::Close) => {
            session.made.source = Some(stream.close());
            session.without_stream()
        }
        _ => Ok(None),
    }
}

// One stream after the other.
fn run_session(session: &mut Session) -> Result<(), AllocError> {
    let mut next = session.without_stream()?;
    'streams: while let Some(start) = next {
        next = match start {
            Start::Chars(text) => run_chars(text, session)?,
            Start::Unbuffered(source) => run_unbuffered(source, session)?,
        };
    }
    Ok(())
}

fn run(rt: &HostRuntime) -> anyhow::Result<()> {
    let heap = rt.alloc();
    let mut script = Vec::new(heap);
    rt.stdin().read_to_end(&mut script)?;
    let lines = read_script(heap, script.as_slice())?;
    let mut session = Session::new(heap, script.as_slice(), lines.as_slice());
    run_session(&mut session)?;
    rt.stdout().write_all(session.printer.out.as_slice())?;
    Ok(())
}

fn main(rt: HostRuntime) -> anyhow::Result<()> {
    run(&rt)
}
