// A token source over a caller's tokens and bytes.
ghost use Rattle.std.specs.Prelude.{◌≡◌, ◌≤◌, true, cond, not, ◌&&◌, Some, None, length};
ghost use Rattle.std.specs.Option.{option_map};
ghost use Rattle.refusals.specs.Answers.{answer};
ghost use Rattle.tokens.specs.Tokens.{is_eof, ends};
ghost use Rattle.tokens.specs.Rests.{list_lawful};
ghost use Rattle.tokens.specs.Lists.{list_check, good_list, bytes_within, bytes_of, byte_text};

use crate::token::{TOKEN_DEFAULT_CHANNEL, TOKEN_EOF, Token, UNSTAMPED};
use crate::token_factory::{EOF_TEXT, put};
use crate::token_source::TokenSource;
use characters::char_stream::past;
use refusals::Refusal;

const MOST_LISTED: usize = 65_536;

// What stands for a bad list.
static LONE_EOF: [Token; 1] = [Token {
    token_type: TOKEN_EOF,
    channel: TOKEN_DEFAULT_CHANNEL,
    start: 0,
    stop: -1,
    line: 1,
    column: 0,
    index: UNSTAMPED,
}];

// The tokens that are still to come, and the bytes that tokens show parts of.
#[derive(Drop)]
pub struct ListSource<'a> {
    coming: &'a [Token],
    bytes: &'a [u8],
    ghost ended: { ends coming.now ≡ true },
    ghost few: { length coming.now ≤ 65536 },
}

// Whether the last token is the only EOF.
fn ends_well(tokens: &[Token]) -> bool
    ensures value { result ≡ ends tokens.now }
{
    let Some((last, front)) = tokens.split_last() else {
        return false;
    };
    last.is_eof() && !front.iter().any(|token| token.is_eof())
}

// The bytes that a token shows; the EOF, and a span that is not inside, show none.
fn shown<'b>(bytes: &'b [u8], token: &Token) -> Option<&'b [u8]>
    ensures value { option_map (λ b. b.now) result ≡ cond (not (is_eof token.now) && bytes_within bytes.now token.now.start token.now.stop) (Some (bytes_of bytes.now token.now.start token.now.stop)) None }
{
    let from = usize::try_from(token.start).ok()?;
    if token.is_eof() || from >= bytes.len() {
        return None;
    }
    bytes.get(from..past(token.stop))
}

// The text of a token.
fn text_of<'b>(bytes: &'b [u8], token: &Token) -> &'b [u8]
    ensures value { result.now ≡ byte_text bytes.now token.now }
{
    shown(bytes, token).unwrap_or(EOF_TEXT)
}

impl<'a> ListSource<'a> {
    // Whether tokens are a list that a source may give.
    pub fn check(tokens: &[Token]) -> Result<(), Refusal>
        ensures value { answer result ≡ list_check tokens.now }
    {
        if tokens.len() <= MOST_LISTED && ends_well(tokens) {
            Ok(())
        } else {
            Err(Refusal::BadList)
        }
    }

    // A source over tokens and bytes; the tokens of a bad list are a lone EOF.
    pub fn new(tokens: &'a [Token], bytes: &'a [u8]) -> Self
        ensures coming { result.coming.now ≡ good_list tokens.now }
        ensures bytes { result.bytes.now ≡ bytes.now }
    {
        let good = Self::check(tokens).is_ok();
        ListSource {
            coming: if good { tokens } else { &LONE_EOF },
            bytes,
        }
    }
}

impl<'a> TokenSource for ListSource<'a> {
    ghost coming = { λ s. s.coming.now };

    ghost text = { λ s. byte_text s.bytes.now };

    ghost lawful = { λ s. list_lawful s.coming.now s.ended s.few };

    fn next_token(&mut self) -> Token {
        let (first, rest) = self.coming.split_first().unwrap();
        if !rest.is_empty() {
            self.coming = rest;
        }
        Token {
            index: UNSTAMPED,
            ..*first
        }
    }

    fn text_len(&self, token: &Token) -> usize {
        text_of(self.bytes, token).len()
    }

    fn write_text(&self, token: &Token, out: &mut [u8]) -> Result<usize, Refusal> {
        put(text_of(self.bytes, token), out)
    }
}
