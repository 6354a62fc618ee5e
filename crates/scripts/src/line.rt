// What a line of a script says. Each reader takes the heap and a line: a struct of the two would only be taken apart again.
ghost use Rattle.std.specs.Prelude.{◌≡◌, [], ◌∷◌, IfOk, Some};
ghost use Rattle.std.specs.Option.{option_map};
ghost use Rattle.scripts.specs.Words.{words};
ghost use Rattle.scripts.specs.Numerals.{every, number};
ghost use Rattle.scripts.specs.declared.line.Line.TheVariants.{Input};
ghost use Rattle.scripts.specs.Calls.{room, released, bare_call, one_call, two_call, three_call, call_of, token_of, kind_of};
ghost use Rattle.scripts.specs.Sayings.{saying, said, input_words, source_words, stream_words, name_numbers};

use crate::numerals::{bytes, numerals};
use crate::words::front_word;
use std::alloc::{AllocError, Global};
use tokens::token::{Token, UNSTAMPED};

const MOST_ROOM: usize = 1_048_576;

// The units of an input, by their kind.
#[derive(Drop)]
pub enum Units {
    Utf8(Vec<u8>),
    Bytes(Vec<u8>),
    Halves(Vec<u16>),
    Words(Vec<u32>),
}

// A stream that a line makes, a common one on a channel. No crate has a common stream yet: its line is answered as a bad one.
#[derive(Clone, Copy)]
pub enum Kind {
    Common(i32),
    Unbuffered,
    Chars,
}

// A call of a stream. `text` with two numbers asks a stream of characters for the text of an interval; with three it asks a
// token stream, and the third is the size of the output, as is the last number wherever a call writes. No stream takes `reset`,
// `all-text`, `hidden-left` and `hidden-right` yet: they are answered as a bad line.
#[derive(Clone, Copy)]
pub enum Call {
    Open(i32),
    Consume,
    La(i32),
    Lt(i32),
    Index,
    Size,
    Seek(i32),
    Reset,
    Mark,
    Release(i32),
    Get(i32),
    Text(i32, i32, usize),
    TextOf(i32, i32, usize),
    AllText(usize),
    Interval(i32, i32),
    HiddenLeft(i32, i32, usize),
    HiddenRight(i32, i32, usize),
    Close,
}

// A line, with what it takes along. A list source has the tokens of the lines since the list source before it.
#[derive(Drop)]
pub enum Line {
    Input(Units),
    NewToken(Token),
    ListSource(Vec<Token>),
    SheetSource,
    NewStream(Kind),
    CountAhead(Vec<i32>),
    Ask(Call),
}

// How large a buffer is.
fn room(n: i32) -> Option<usize>
    ensures value { result ≡ room n }
{
    usize::try_from(n).ok().filter(|room| *room <= MOST_ROOM)
}

// Marks are numbered from -255 to 0.
fn released(n: i32) -> Option<Call>
    ensures value { result ≡ released n }
{
    (-255..=0).contains(&n).then_some(Call::Release(n))
}

// The calls with no number.
fn bare(name: &[u8]) -> Option<Call>
    ensures value { result ≡ bare_call name.now }
{
    match name {
        b"consume" => Some(Call::Consume),
        b"index" => Some(Call::Index),
        b"size" => Some(Call::Size),
        b"reset" => Some(Call::Reset),
        b"mark" => Some(Call::Mark),
        b"close" => Some(Call::Close),
        _ => None,
    }
}

// The calls with one number.
fn with_one(name: &[u8], k: i32) -> Option<Call>
    ensures value { result ≡ one_call name.now k }
{
    match name {
        b"open" => Some(Call::Open(k)),
        b"la" => Some(Call::La(k)),
        b"lt" => Some(Call::Lt(k)),
        b"seek" => Some(Call::Seek(k)),
        b"get" => Some(Call::Get(k)),
        b"release" => released(k),
        b"all-text" => room(k).map(Call::AllText),
        _ => None,
    }
}

// The calls with two numbers.
fn with_two(name: &[u8], start: i32, stop: i32) -> Option<Call>
    ensures value { result ≡ two_call name.now start stop }
{
    match name {
        b"text" => Some(Call::Interval(start, stop)),
        _ => None,
    }
}

// The calls with three numbers, of which the last is a room.
fn with_three(name: &[u8], a: i32, b: i32, last: i32) -> Option<Call>
    ensures value { result ≡ three_call name.now a b (room last) }
{
    let room = room(last)?;
    match name {
        b"text" => Some(Call::Text(a, b, room)),
        b"text-of" => Some(Call::TextOf(a, b, room)),
        b"hidden-left" => Some(Call::HiddenLeft(a, b, room)),
        b"hidden-right" => Some(Call::HiddenRight(a, b, room)),
        _ => None,
    }
}

// The call of a name with numbers.
fn call_of(name: &[u8], numbers: &[i32]) -> Option<Call>
    ensures value { result ≡ call_of name.now numbers.now }
{
    match numbers {
        [] => bare(name),
        [k] => with_one(name, *k),
        [a, b] => with_two(name, *a, *b),
        [a, b, c] => with_three(name, *a, *b, *c),
        _ => None,
    }
}

// The token of six numbers.
fn token_of(numbers: &[i32]) -> Option<Token>
    ensures value { result ≡ token_of numbers.now }
{
    let &[token_type, channel, start, stop, line, column] = numbers else {
        return None;
    };
    Some(Token {
        token_type,
        channel,
        start,
        stop,
        line,
        column,
        index: UNSTAMPED,
    })
}

// The stream of a kind with numbers.
fn kind_of(kind: &[u8], numbers: &[i32]) -> Option<Kind>
    ensures value { result ≡ kind_of kind.now numbers.now }
{
    match numbers {
        [] => bare_kind(kind),
        [channel] => common_kind(kind, *channel),
        _ => None,
    }
}

fn bare_kind(kind: &[u8]) -> Option<Kind>
    ensures value { result ≡ kind_of kind.now [] }
{
    match kind {
        b"unbuffered" => Some(Kind::Unbuffered),
        b"chars" => Some(Kind::Chars),
        _ => None,
    }
}

fn common_kind(kind: &[u8], channel: i32) -> Option<Kind>
    ensures value { result ≡ kind_of kind.now (channel ∷ []) }
{
    match kind {
        b"common" => Some(Kind::Common(channel)),
        _ => None,
    }
}

// The units of a kind that words write.
fn input_units(heap: Global, kind: &[u8], line: &[u8]) -> Result<Option<Units>, AllocError>
    ensures made { IfOk result (λ o. saying (option_map Input o) ≡ input_words (kind.now ∷ words line.now)) }
{
    match kind {
        b"utf8" => Ok(bytes(heap, line)?.map(Units::Utf8)),
        b"u8" => Ok(bytes(heap, line)?.map(Units::Bytes)),
        b"u16" => Ok(numerals(heap, line)?.map(Units::Halves)),
        b"u32" => Ok(numerals(heap, line)?.map(Units::Words)),
        _ => Ok(None),
    }
}

// An input of the kind that the first word names.
fn input_line(heap: Global, line: &[u8]) -> Result<Option<Line>, AllocError>
    ensures made { IfOk result (λ o. saying o ≡ input_words (words line.now)) }
{
    let Some((kind, rest)) = front_word(line) else {
        return Ok(None);
    };
    Ok(input_units(heap, kind, rest)?.map(Line::Input))
}

// A source. The tokens of a list are added by whoever has read the lines before it.
fn source_line(heap: Global, line: &[u8]) -> Option<Line>
    ensures value { saying result ≡ source_words (words line.now) }
{
    let (kind, rest) = front_word(line)?;
    if front_word(rest).is_some() {
        return None;
    }
    match kind {
        b"list" => Some(Line::ListSource(Vec::new(heap))),
        b"sheet" => Some(Line::SheetSource),
        _ => None,
    }
}

// A stream of the kind that the first word names.
fn stream_line(heap: Global, line: &[u8]) -> Result<Option<Line>, AllocError>
    ensures made { IfOk result (λ o. saying o ≡ stream_words (words line.now)) }
{
    let Some((kind, rest)) = front_word(line) else {
        return Ok(None);
    };
    let Some(found) = numerals::<i32>(heap, rest)? else {
        return Ok(None);
    };
    Ok(kind_of(kind, found.as_slice()).map(Line::NewStream))
}

// A line of a name with numbers.
fn named_line(name: &[u8], found: Vec<i32>) -> Option<Line>
    ensures value { saying result ≡ name_numbers name.now (Some found.items) }
{
    // Tests in place of a `match`: its last arm, which goes on with a call, would be proved once for each byte that may differ.
    if name == b"count-ahead".as_slice() {
        Some(Line::CountAhead(found))
    } else if name == b"token".as_slice() {
        token_of(found.as_slice()).map(Line::NewToken)
    } else {
        call_of(name, found.as_slice()).map(Line::Ask)
    }
}

// A line of a name, if only numbers follow it.
fn numbers_line(heap: Global, name: &[u8], line: &[u8]) -> Result<Option<Line>, AllocError>
    ensures made { IfOk result (λ o. saying o ≡ name_numbers name.now (every number (words line.now))) }
{
    let Some(found) = numerals(heap, line)? else {
        return Ok(None);
    };
    Ok(named_line(name, found))
}

// What a line says, if it says anything.
pub fn read_line(heap: Global, line: &[u8]) -> Result<Option<Line>, AllocError>
    ensures made { IfOk result (λ o. saying o ≡ said (words line.now)) }
{
    let Some((name, rest)) = front_word(line) else {
        return Ok(None);
    };
    // Tests, as in `named_line`.
    if name == b"input".as_slice() {
        input_line(heap, rest)
    } else if name == b"source".as_slice() {
        Ok(source_line(heap, rest))
    } else if name == b"stream".as_slice() {
        stream_line(heap, rest)
    } else {
        numbers_line(heap, name, rest)
    }
}
