// What a script prints.
ghost use Rattle.std.specs.Prelude.{◌≡◌, ◌<◌, ◌++◌, [], ◌∷◌, IfOk, Some, codes, string_bytes, OnOk};
ghost use Rattle.std.specs.List.{flat_map};
ghost use Rattle.scripts.specs.Words.{words};
ghost use Rattle.scripts.specs.Printed.{spaced, only_first, echo, place_text, token_text, value_text, answer_text, hex_digit, hex_byte, bytes_text, count_text};

use crate::words::{Words, front_word};
use refusals::Refusal;
use std::alloc::{AllocError, Global};
use std::fmt;
use tokens::token::Token;

// What a call gives, but for what it wrote into a buffer. A look for a token may find none. The cases are those of a reply of
// the crate `runs`: one enum for both would stand in a crate below them, and the texts that a script prints with it.
#[derive(Clone, Copy)]
pub enum Value {
    Done,
    Number(i32),
    Count(usize),
    Token(Option<Token>),
}

// What a line answers: what its call gave, or why it was refused.
pub type Answer = Result<Value, Refusal>;

// Where a token stands in its input. It is a type of its own, since a `write!` with more than four holes gets no proof.
#[derive(Clone, Copy)]
struct Place(Token);

impl fmt::Display for Place {
    ghost output = { λ p. Some (place_text p.0) };

    fn fmt<W: fmt::Write>(&self, f: &mut fmt::Formatter<W>) -> fmt::Result {
        let Place(token) = self;
        write!(
            f,
            "{} {} {} {}",
            token.start, token.stop, token.line, token.column
        )
    }
}

// A token, by its seven numbers.
#[derive(Clone, Copy)]
struct Numbers(Token);

impl fmt::Display for Numbers {
    ghost output = { λ n. Some (token_text n.0) };

    fn fmt<W: fmt::Write>(&self, f: &mut fmt::Formatter<W>) -> fmt::Result {
        let Numbers(token) = self;
        write!(
            f,
            "{} {} {} {}",
            token.index,
            token.token_type,
            token.channel,
            Place(*token)
        )
    }
}

impl fmt::Display for Value {
    ghost output = { λ v. Some (value_text v) };

    fn fmt<W: fmt::Write>(&self, f: &mut fmt::Formatter<W>) -> fmt::Result {
        match self {
            Value::Done => write!(f, "ok"),
            Value::Number(number) => write!(f, "{number}"),
            Value::Count(count) => write!(f, "{count}"),
            Value::Token(None) => write!(f, "none"),
            Value::Token(Some(token)) => write!(f, "{}", Numbers(*token)),
        }
    }
}

// A space and a word.
fn push_word(out: &mut Vec<u8>, word: &[u8]) -> Result<(), AllocError>
    ensures after { OnOk result (out.new.items ≡ out.old.items ++ 32 ∷ word.now) }
{
    out.push(b' ')?;
    out.extend_from_slice(word)
}

// A space and a word, for each word.
fn push_words(out: &mut Vec<u8>, line: &[u8]) -> Result<(), AllocError>
    ensures after { OnOk result (out.new.items ≡ out.old.items ++ spaced (words line.now)) }
{
    for word in Words::of(line) {
        push_word(out, word)?;
    }
    Ok(())
}

// The same of the first word only.
fn push_first(out: &mut Vec<u8>, line: &[u8]) -> Result<(), AllocError>
    ensures after { OnOk result (out.new.items ≡ out.old.items ++ spaced (only_first (words line.now))) }
{
    match front_word(line) {
        Some((word, _)) => push_word(out, word),
        None => Ok(()),
    }
}

// The words of a line, with a space between. Of an input, which can be long, only the first two.
pub fn push_echo(out: &mut Vec<u8>, line: &[u8]) -> Result<(), AllocError>
    ensures after { OnOk result (out.new.items ≡ out.old.items ++ echo (words line.now)) }
{
    let Some((first, rest)) = front_word(line) else {
        return Ok(());
    };
    out.extend_from_slice(first)?;
    match first {
        b"input" => push_first(out, rest),
        _ => push_words(out, rest),
    }
}

// The text of an answer. It is a text of its own, since `write!` onto bytes answers another error than one of memory.
fn answer_text(heap: Global, answer: Answer) -> Result<String, AllocError>
    ensures made { IfOk result (λ s. string_bytes s ≡ answer_text answer) }
{
    match answer {
        Ok(value) => value.to_string(heap),
        Err(refusal) => format!(in heap; "REFUSED {}", refusal.number()),
    }
}

// What a call gave, or its refusal.
pub fn push_answer(out: &mut Vec<u8>, answer: Answer) -> Result<(), AllocError>
    ensures after { OnOk result (out.new.items ≡ out.old.items ++ answer_text answer) }
{
    let text = answer_text(*out.allocator(), answer)?;
    out.extend_from_slice(text.as_bytes())
}

// What stands in place of an answer where a line says nothing.
pub fn push_bad_line(out: &mut Vec<u8>) -> Result<(), AllocError>
    ensures after { OnOk result (out.new.items ≡ out.old.items ++ codes "BAD LINE") }
{
    out.extend_from_slice(b"BAD LINE")
}

// The hexadecimal digit of a number below 16.
fn hex_digit(n: u8) -> u8
    requires few { n < 16 }
    ensures value { result ≡ hex_digit n }
{
    char::from_digit(u32::from(n), 16).unwrap() as u8
}

// Bytes in hexadecimal, straight onto the output: a text of their own would take as much room again, and a `write!` for each
// byte three times as long.
fn push_hex(out: &mut Vec<u8>, bytes: &[u8]) -> Result<(), AllocError>
    ensures after { OnOk result (out.new.items ≡ out.old.items ++ flat_map hex_byte bytes.now) }
{
    out.reserve(2 * bytes.len())?;
    for &byte in bytes {
        out.extend_from_slice(&[hex_digit(byte / 16), hex_digit(byte % 16)])?;
    }
    Ok(())
}

// A colon, and then the bytes, if there are any.
fn push_bytes(out: &mut Vec<u8>, bytes: &[u8]) -> Result<(), AllocError>
    ensures after { OnOk result (out.new.items ≡ out.old.items ++ bytes_text bytes.now) }
{
    if bytes.is_empty() {
        return out.extend_from_slice(b" :");
    }
    out.extend_from_slice(b" : ")?;
    push_hex(out, bytes)
}

// What a call wrote into a buffer, and the buffer after the call.
pub fn push_written(
    out: &mut Vec<u8>,
    res: Result<usize, Refusal>,
    buffer: &[u8],
) -> Result<(), AllocError>
    ensures after { OnOk result (out.new.items ≡ out.old.items ++ (count_text res ++ bytes_text buffer.now)) }
{
    push_answer(out, res.map(Value::Count))?;
    push_bytes(out, buffer)
}
