// The lines of a listing.
ghost use Rattle.std.specs.Prelude.{◌≡◌, ◌++◌, IfOk, OnOk};
ghost use Rattle.listing.specs.Lines.{escape, escaped, line, listed};

use std::alloc::{AllocError, Global};
use tokens::token::Token;
use tokens::token_source::{MOST_TOKENS, TokenSource};

// Adds a byte of a text to a line. What would break the line, or read as an escape, is escaped.
fn push_escaped(out: &mut Vec<u8>, byte: u8) -> Result<(), AllocError>
    ensures after { OnOk result (out.new.items ≡ out.old.items ++ escape byte) }
{
    match char::from(byte) {
        '\n' => out.extend_from_slice(b"\\n"),
        '\t' => out.extend_from_slice(b"\\t"),
        '\r' => out.extend_from_slice(b"\\r"),
        '\\' => out.extend_from_slice(b"\\\\"),
        _ => Ok(out.push(byte)?),
    }
}

// Adds a text, escaped.
fn push_text(out: &mut Vec<u8>, text: &[u8]) -> Result<(), AllocError>
    ensures after { OnOk result (out.new.items ≡ out.old.items ++ escaped text.now) }
{
    for byte in text {
        push_escaped(out, *byte)?;
    }
    Ok(())
}

// Adds the line of a token with an index and a text.
pub fn push_line(
    out: &mut Vec<u8>,
    index: u32,
    token: &Token,
    text: &[u8],
) -> Result<(), AllocError>
    ensures after { OnOk result (out.new.items ≡ out.old.items ++ line index token.now text.now) }
{
    let heap = *out.allocator();
    // A `String` between, since what `write!` onto the bytes answers is no `AllocError`.
    let head = format!(in heap; "{index} {} {} [", token.token_type, token.channel)?;
    out.extend_from_slice(head.as_bytes())?;
    push_text(out, text)?;
    out.extend_from_slice(b"]\n")
}

// Adds the line of a token that a source gave.
fn push_token<S: TokenSource>(
    out: &mut Vec<u8>,
    source: &S,
    index: u32,
    token: &Token,
) -> Result<(), AllocError>
    ensures after { OnOk result (out.new.items ≡ out.old.items ++ line index token.now (S.TokenSource.text source.now token.now)) }
{
    let heap = *out.allocator();
    let mut text = vec![in heap; 0; source.text_len(token)]?;
    source.write_text(token, text.as_mut_slice()).unwrap();
    push_line(out, index, token, text.as_slice())
}

// The listing of the tokens that a source gives, through the EOF.
pub fn list<S: TokenSource + Drop>(heap: Global, mut source: S) -> Result<Vec<u8>, AllocError>
    ensures made { IfOk result (λ v. v.items ≡ listed (S.TokenSource.text source) 0 (S.TokenSource.coming source)) }
{
    let mut out = Vec::new(heap);
    'pull: for index in 0..MOST_TOKENS as u32 {
        let token = source.next_token();
        push_token(&mut out, &source, index, &token)?;
        if token.is_eof() {
            return Ok(out);
        }
    }
    unreachable!()
}
