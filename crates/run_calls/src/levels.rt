// The calls of a stream, while marks of it are out.
ghost use Rattle.std.specs.Prelude.{◌≡◌, ◌≤◌, true, false, length};
ghost use Rattle.streams.specs.Calls.{status_with};
ghost use Rattle.streams.specs.Marks.{latest, earlier};
ghost use Rattle.run_calls.specs.Held.{Held, Stays};
ghost use Rattle.run_calls.specs.Shrinking.{Shrinks};

use crate::calls::{Called, Taken};
use crate::made::Made;
use crate::printer::Printer;
use crate::session::{Exit, Session};
use count_ahead::count_ahead;
use refusals::Refusal;
use scripts::answers::{Answer, Value};
use scripts::line::{Call, Line};
use std::alloc::AllocError;
use streams::int_stream::IntStream;
use streams::mark::{Kept, Mark, Marks, Numbering};

// What follows a line.
#[derive(Drop)]
enum Next<'a> {
    On,
    Mark,
    Leave(Exit<'a>),
}

// Gives the latest mark back.
fn give_back<S: IntStream>(stream: &mut S, mark: Mark)
    requires opened { (S.IntStream.status stream.old).opened ≡ true }
    requires latest { latest (S.IntStream.status stream.old).marks mark.number ≡ true }
    ensures status { S.IntStream.status stream.new ≡ status_with (S.IntStream.status stream.old) (earlier (S.IntStream.status stream.old).marks) }
{
    stream.release(mark).unwrap();
}

// Hands in a mark of a number that another stream gave. Where it is refused, that one takes it back.
fn release_other<S: IntStream>(stream: &mut S, number: i32) -> Result<(), Refusal>
    ensures status { latest (S.IntStream.status stream.old).marks number ≡ false → S.IntStream.status stream.new ≡ S.IntStream.status stream.old }
{
    let mut other = Marks::new(Numbering::Fixed(number));
    match stream.release(other.mark()?) {
        Ok(()) => Ok(()),
        Err(Kept { mark, refusal }) => {
            other.release(mark).unwrap();
            Err(refusal)
        }
    }
}

// The calls that every stream has, but for those on marks.
fn ask<S: IntStream>(stream: &mut S, call: Call) -> Option<Answer>
    ensures status { S.IntStream.status stream.new ≡ S.IntStream.status stream.old }
{
    match call {
        Call::La(k) => Some(stream.la(k).map(Value::Number)),
        Call::Consume => Some(stream.consume().map(|()| Value::Done)),
        Call::Seek(index) => Some(stream.seek(index).map(|()| Value::Done)),
        Call::Index => Some(stream.index().map(Value::Number)),
        Call::Size => Some(stream.size().map(Value::Number)),
        _ => None,
    }
}

fn take_call<'a, S: Called>(
    stream: &mut S,
    printer: &mut Printer,
    call: Call,
    held: Option<i32>,
) -> Result<Next<'a>, AllocError>
    requires held { Held (S.IntStream.status stream.old) held }
    ensures status { Stays held (S.IntStream.status stream.old) (S.IntStream.status stream.new) }
{
    match call {
        Call::Mark => return Ok(Next::Mark),
        Call::Release(number) if held == Some(number) => return Ok(Next::Leave(Exit::Release)),
        Call::Release(number) => {
            printer.answer(release_other(stream, number).map(|()| Value::Done))?;
            return Ok(Next::On);
        }
        _ => {}
    }
    if let Some(answer) = ask(stream, call) {
        printer.answer(answer)?;
        return Ok(Next::On);
    }
    match stream.call(call, &mut printer.out)? {
        Taken::Answered => printer.end_line()?,
        Taken::Unknown => printer.bad_line()?,
        Taken::Closes => {
            printer.answer(Ok(Value::Done))?;
            return Ok(Next::Leave(Exit::Close));
        }
    }
    Ok(Next::On)
}

fn take_line<'a, S: Called>(
    stream: &mut S,
    made: &mut Made<'a>,
    printer: &mut Printer,
    line: &'a Line,
    held: Option<i32>,
) -> Result<Next<'a>, AllocError>
    requires held { Held (S.IntStream.status stream.old) held }
    ensures status { Stays held (S.IntStream.status stream.old) (S.IntStream.status stream.new) }
{
    if let Some(answer) = made.make(line) {
        printer.answer(answer)?;
        return Ok(Next::On);
    }
    match line {
        Line::Ask(call) => take_call(stream, printer, *call, held),
        Line::CountAhead(wanted) => {
            printer.answer(count_ahead(stream, wanted.as_slice()).map(Value::Count))?;
            Ok(Next::On)
        }
        Line::NewStream(kind) => {
            let start = made.start(*kind, printer)?;
            Ok(start.map_or(Next::On, |start| Next::Leave(Exit::Stream(start))))
        }
        _ => Ok(Next::On),
    }
}

// The lines up to one that ends the calls. `held` is the number of the latest mark, which whoever called holds.
// The three are no struct: each level has another `held`, and each call would take the stream and the session out of it.
#[cycle(run_lines_run_marked)]
pub(crate) fn run_lines<'a, S: Called>(
    stream: &mut S,
    session: &mut Session<'a>,
    held: Option<i32>,
) -> Result<Option<Exit<'a>>, AllocError>
    requires held { Held (S.IntStream.status stream.old) held }
    ensures status { Stays held (S.IntStream.status stream.old) (S.IntStream.status stream.new) }
    ensures lines { Shrinks result session.old.lines.rest.now session.new.lines.rest.now }
{
    'lines: while let Some(line) = session.next()? {
        match take_line(stream, &mut session.made, &mut session.printer, line, held)? {
            Next::On => {}
            Next::Leave(exit) => return Ok(Some(exit)),
            Next::Mark => match stream.mark() {
                Err(refusal) => session.printer.answer(Err(refusal))?,
                Ok(mark) => match run_marked(stream, session, mark)? {
                    Some(Exit::Release) => session.printer.answer(Ok(Value::Done))?,
                    exit => return Ok(exit),
                },
            },
        }
    }
    Ok(None)
}

// The lines while a mark is the latest. It is given back, whatever ends them.
#[cycle(run_lines_run_marked)]
fn run_marked<'a, S: Called>(
    stream: &mut S,
    session: &mut Session<'a>,
    mark: Mark,
) -> Result<Option<Exit<'a>>, AllocError>
    requires opened { (S.IntStream.status stream.old).opened ≡ true }
    requires latest { latest (S.IntStream.status stream.old).marks mark.number ≡ true }
    ensures status { S.IntStream.status stream.new ≡ status_with (S.IntStream.status stream.old) (earlier (S.IntStream.status stream.old).marks) }
    ensures no_more { length session.new.lines.rest.now ≤ length session.old.lines.rest.now }
{
    let number = mark.number();
    // No `?`, since the mark is given back before an error leaves, and no `and_then`, whose closure would need a measure of its
    // own in this cycle of calls.
    let exit = match session.printer.answer(Ok(Value::Number(number))) {
        Ok(()) => run_lines(stream, session, Some(number)),
        Err(error) => Err(error),
    };
    give_back(stream, mark);
    exit
}
