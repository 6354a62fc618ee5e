// A token source over any input: the longest matches of a sheet, one after the other.
ghost use Rattle.std.specs.Prelude.{◌≡◌, ◌+◌, ◌^◌, ◌<◌, ◌≤◌, pos};
ghost use Rattle.std.specs.List.{prefix_len};
ghost use Rattle.characters.specs.Text.{start_from};
ghost use Rattle.tokens.specs.Spans.{span_text};
ghost use Rattle.tokens.specs.declared.token.Token.{Token};
ghost use Rattle.lexer.specs.Sheets.{before, Sheet};
ghost use Rattle.lexer.specs.Remarks.{ToldApart};
ghost use Rattle.lexer.specs.Lexed.{goes_on, number, more, made, made_eof, type_of, lexed};
ghost use Rattle.lexer.specs.Passed.{Passed, rest};
ghost use Rattle.lexer.specs.Listed.{lexed_lawful};

use crate::class::{Class, class_of};
use characters::char_stream::InputData;
use refusals::Refusal;
use tokens::token::{TOKEN_DEFAULT_CHANNEL, TOKEN_EOF, Token, UNSTAMPED};
use tokens::token_factory::{span_text_len, write_span_text};
use tokens::token_source::TokenSource;

const POINT: u32 = '.' as u32;

// Symbols passed over: where they end, and how many they are. An input is read by positions, so that there is no slice to keep.
#[derive(Clone, Copy)]
struct Piece {
    end: usize,
    count: usize,
}

// A place of an input where a symbol starts, or its end.
#[derive(Drop)]
struct Cursor<'a, D: InputData> {
    input: &'a D,
    at: usize,
    ghost start: { start_from (D.InputData.meaning input.now) at ≡ at },
}

impl<'a, D: InputData> Cursor<'a, D> {
    // Passes over the symbols that a run goes on with, and counts them. A chain would want an iterator of code points that says what
    // it yields and that it ends, which is longer than this walk. It takes the class, and no closure: each would only call `goes_on`.
    fn run(&self, class: Class) -> Piece
        ensures passed { Passed (D.InputData.meaning self.now.input.now) self.now.at (prefix_len (goes_on class) (rest (D.InputData.meaning self.now.input.now) self.now.at)) result.end result.count }
    {
        let mut end = self.at;
        let mut count = 0;
        'walk: while let Some(point) = self.input.code_point(end) {
            if !class.goes_on(point.code) {
                break;
            }
            end = point.next;
            count += 1;
        }
        Piece { end, count }
    }

    // Passes over what follows the first digit of a number: more digits, and a point where digits follow it.
    fn number(&self) -> Piece
        ensures passed { Passed (D.InputData.meaning self.now.input.now) self.now.at (number (rest (D.InputData.meaning self.now.input.now) self.now.at)) result.end result.count }
    {
        let whole = self.run(Class::Digit);
        let Some(point) = self.input.code_point(whole.end) else {
            return whole;
        };
        if point.code != POINT {
            return whole;
        }
        let after = Cursor {
            input: self.input,
            at: point.next,
        };
        let fraction = after.run(Class::Digit);
        if fraction.count == 0 {
            return whole;
        }
        Piece {
            end: fraction.end,
            count: whole.count + 1 + fraction.count,
        }
    }

    // Passes over what follows the first symbol of a match.
    fn rest_of_match(&self, class: Class) -> Piece
        ensures passed { Passed (D.InputData.meaning self.now.input.now) self.now.at (more class (rest (D.InputData.meaning self.now.input.now) self.now.at)) result.end result.count }
    {
        match class {
            Class::Digit => self.number(),
            _ => self.run(class),
        }
    }
}

// The lexer stands at a start, on a line and in a column; an input is read by positions. No ghost field says that it is a start: its meaning covers the other
// positions too, from which only the EOF comes.
#[derive(Drop)]
pub struct SheetLexer<D> {
    input: D,
    at: usize,
    line: usize,
    column: usize,
    ghost inside: { at ≤ 65536 },
    ghost lines: { line ≤ at + 1 },
    ghost columns: { column ≤ at },
}

impl<D: InputData + Drop> SheetLexer<D> {
    // A lexer at the front of an input.
    pub fn new(input: D) -> Self
        ensures tokens { Sheet (D.InputData.meaning input) (lexed (D.InputData.meaning result.input) result.at result.line result.column) }
        ensures remark_is_never_a_value { ToldApart (D.InputData.meaning input) (lexed (D.InputData.meaning result.input) result.at result.line result.column) }
        ensures input { result.input ≡ input }
    {
        let at = input.start_from(0);
        SheetLexer {
            input,
            at,
            line: 1,
            column: 0,
        }
    }

    // The EOF at the end of the input, on the line and in the column where the lexer stands.
    fn eof(&self) -> Token
        ensures value { result ≡ made_eof (D.InputData.meaning self.now.input).size self.now.line self.now.column }
    {
        let size = self.input.len();
        Token {
            token_type: TOKEN_EOF,
            channel: TOKEN_DEFAULT_CHANNEL,
            start: size as i32,
            stop: size as i32 - 1,
            line: self.line as i32,
            column: self.column as i32,
            index: UNSTAMPED,
        }
    }

    // The token of a class from where the lexer stands to just before `end`.
    fn token(&self, class: Class, end: usize) -> Token
        requires fits { end ≤ 65536 }
        ensures value { result ≡ made (type_of class) self.now.at end self.now.line self.now.column }
    {
        Token {
            token_type: class.token_type(),
            channel: class.channel(),
            start: self.at as i32,
            stop: end as i32 - 1,
            line: self.line as i32,
            column: self.column as i32,
            index: UNSTAMPED,
        }
    }
}

impl<D: InputData + Drop> TokenSource for SheetLexer<D> {
    ghost coming = { λ s. lexed (D.InputData.meaning s.input) s.at s.line s.column };

    ghost text = { λ s. span_text (D.InputData.meaning s.input) };

    ghost lawful = { λ s. lexed_lawful (D.InputData.meaning s.input) (D.InputData.lawful s.input) s.at s.line s.column };

    fn next_token(&mut self) -> Token {
        let Some(first) = self.input.code_point(self.at) else {
            return self.eof();
        };
        let class = class_of(first.code);
        let second = Cursor {
            input: &self.input,
            at: first.next,
        };
        let piece = second.rest_of_match(class);
        let token = self.token(class, piece.end);
        self.at = piece.end;
        match class {
            Class::LineFeed => {
                self.line += 1;
                self.column = 0;
            }
            _ => self.column += 1 + piece.count,
        }
        token
    }

    fn text_len(&self, token: &Token) -> usize {
        span_text_len(&self.input, token)
    }

    fn write_text(&self, token: &Token, out: &mut [u8]) -> Result<usize, Refusal> {
        write_span_text(&self.input, token, out)
    }
}
