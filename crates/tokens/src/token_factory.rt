// The text of a token that spans a part of an input. Each call takes the input and the token, which no value holds together.
ghost use Rattle.std.specs.Prelude.{◌≡◌, cond, not, ◌&&◌, Some, None, length};
ghost use Rattle.std.specs.Option.{option_map};
ghost use Rattle.refusals.specs.Answers.{answer};
ghost use Rattle.refusals.specs.Outputs.{written, overwritten};
ghost use Rattle.characters.specs.Signed.{interval};
ghost use Rattle.tokens.specs.Tokens.{is_eof};
ghost use Rattle.tokens.specs.Spans.{spans, span_text};

use crate::token::Token;
use characters::char_stream::InputData;
use refusals::Refusal;

// What the EOF shows, and a token whose span is not inside the input.
pub(crate) const EOF_TEXT: &[u8; 5] = b"<EOF>";

// Writes bytes into an output.
pub(crate) fn put(bytes: &[u8], out: &mut [u8]) -> Result<usize, Refusal>
    ensures value { answer result ≡ written bytes.now out.old }
    ensures after { out.new ≡ overwritten bytes.now out.old }
{
    let len = bytes.len();
    if out.len() < len {
        return Err(Refusal::ShortOutput);
    }
    // `get_mut` would test and take at once, but promises nothing of what is written through it.
    out[..len].copy_from_slice(bytes);
    Ok(len)
}

// The part of the input that a token shows; the EOF, and a span that is not inside, show none.
fn shown<D: InputData + Drop>(input: &D, token: &Token) -> Option<D>
    ensures value { option_map D.InputData.meaning result ≡ cond (not (is_eof token.now) && spans (D.InputData.meaning input.now) token.now) (Some (interval (D.InputData.meaning input.now) token.now.start token.now.stop)) None }
{
    if token.is_eof() || token.start >= input.len() as i32 {
        return None;
    }
    input.check_interval(token.start, token.stop).ok()?;
    Some(input.interval(token.start, token.stop))
}

// How many bytes the text of a token has.
pub fn span_text_len<D: InputData + Drop>(input: &D, token: &Token) -> usize
    ensures value { result ≡ length (span_text (D.InputData.meaning input.now) token.now) }
{
    shown(input, token).map_or(EOF_TEXT.len(), |text| text.display_len())
}

// Writes the text of a token.
pub fn write_span_text<D: InputData + Drop>(
    input: &D,
    token: &Token,
    out: &mut [u8],
) -> Result<usize, Refusal>
    ensures value { answer result ≡ written (span_text (D.InputData.meaning input.now) token.now) out.old }
    ensures after { out.new ≡ overwritten (span_text (D.InputData.meaning input.now) token.now) out.old }
{
    match shown(input, token) {
        Some(text) => text.to_display(out),
        None => put(EOF_TEXT, out),
    }
}
