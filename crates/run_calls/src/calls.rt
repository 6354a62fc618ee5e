// The calls of a stream.
ghost use Rattle.std.specs.Prelude.{◌≡◌, true};

use crate::source::AnySource;
use crate::text::AnyText;
use characters::char_stream::InputData;
use input_streams::input_stream::InputStream;
use refusals::Refusal;
use scripts::answers::{Value, push_answer, push_written};
use scripts::line::Call;
use std::alloc::AllocError;
use streams::int_stream::IntStream;
use token_streams::token_stream::UnbufferedTokenStream;
use tokens::token::Token;
use windows::window::ring::BLANK;

// What became of a call: it is answered, it ends the stream, or the stream has no such call.
#[derive(Clone, Copy)]
pub enum Taken {
    Answered,
    Closes,
    Unknown,
}

// A stream with the calls that not every stream has.
pub trait Called: IntStream {
    // Makes a call, and prints what it answered.
    fn call(&mut self, call: Call, out: &mut Vec<u8>) -> Result<Taken, AllocError>
        ensures status { (Self.IntStream.status self.old).opened ≡ true → Self.IntStream.status self.new ≡ Self.IntStream.status self.old };
}

impl<'a> Called for InputStream<AnyText<'a>> {
    fn call(&mut self, call: Call, out: &mut Vec<u8>) -> Result<Taken, AllocError> {
        match call {
            Call::Interval(start, stop) => {
                push_interval(self, start, stop, out)?;
                Ok(Taken::Answered)
            }
            _ => Ok(Taken::Unknown),
        }
    }
}

// The shown text of an interval.
fn push_interval(
    stream: &InputStream<AnyText>,
    start: i32,
    stop: i32,
    out: &mut Vec<u8>,
) -> Result<(), AllocError> {
    if let Err(refusal) = stream.check_text(start, stop) {
        return push_answer(out, Err(refusal));
    }
    let part = stream.text(start, stop);
    let mut shown = vec![in *out.allocator(); 0; part.display_len()]?;
    let count = part.to_display(shown.as_mut_slice());
    push_written(out, count, shown.as_slice())
}

impl<'a> Called for UnbufferedTokenStream<AnySource<'a>> {
    fn call(&mut self, call: Call, out: &mut Vec<u8>) -> Result<Taken, AllocError> {
        match call {
            Call::Open(capacity) => push_answer(out, self.open(capacity).map(|()| Value::Done))?,
            Call::Lt(k) => push_answer(out, self.lt(k).map(Value::Token))?,
            Call::Get(index) => push_answer(
                out,
                self.get(index).map(|token| Value::Token(Some(token))),
            )?,
            Call::Text(start, stop, room) => push_filled(out, room, |buffer| {
                self.get_text_from_interval(start, stop, buffer)
            })?,
            Call::TextOf(first, last, room) => push_filled(out, room, |buffer| {
                self.get_text_from_tokens(&at(first), &at(last), buffer)
            })?,
            Call::Close => return Ok(Taken::Closes),
            _ => return Ok(Taken::Unknown),
        }
        Ok(Taken::Answered)
    }
}

// What a call wrote into a buffer of a size.
fn push_filled<F: FnOnce(&mut [u8]) -> Result<usize, Refusal>>(
    out: &mut Vec<u8>,
    room: usize,
    fill: F,
) -> Result<(), AllocError>
    requires callable { F.IsAlwaysCallable fill }
{
    let mut buffer = vec![in *out.allocator(); 0xAA; room]?;
    let count = fill(buffer.as_mut_slice());
    push_written(out, count, buffer.as_slice())
}

// A token of which only the index counts: the call takes tokens, as the interface has it.
fn at(index: i32) -> Token {
    Token { index, ..BLANK }
}
