// Where tokens come from.
ghost use Rattle.std.specs.Prelude.{◌≡◌, ℕ, List, length};
ghost use Rattle.refusals.specs.Answers.{answer};
ghost use Rattle.refusals.specs.Outputs.{written, overwritten};
ghost use Rattle.tokens.specs.declared.token.Token.{Token};
ghost use Rattle.tokens.specs.Tokens.{Lawful};
ghost use Rattle.tokens.specs.Sources.{Pulls};

use crate::token::Token;
use refusals::Refusal;

// A list of tokens to come has no more, which `lawful` says.
pub const MOST_TOKENS: usize = 1_048_576;

// A source is the tokens still to come, and a text for every token record. A stream uses nothing else of it.
pub trait TokenSource: Sized {
    // the tokens still to come
    ghost coming: { Self → List Token };

    // the text of each token record, in bytes
    ghost text: { Self → Token → List ℕ };

    ghost lawful: { (s : Self) → Lawful (coming s) };

    // The first token to come.
    fn next_token(&mut self) -> Token
        ensures pulls { Pulls (coming self.old) result (coming self.new) }
        ensures texts { text self.new ≡ text self.old };

    // How many bytes a token's text has.
    fn text_len(&self, token: &Token) -> usize
        ensures value { result ≡ length (text self.now token.now) };

    // Writes a token's text.
    fn write_text(&self, token: &Token, out: &mut [u8]) -> Result<usize, Refusal>
        ensures value { answer result ≡ written (text self.now token.now) out.old }
        ensures after { out.new ≡ overwritten (text self.now token.now) out.old };
}
