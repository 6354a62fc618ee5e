// The texts of held tokens.
ghost use Rattle.std.specs.Prelude.{◌≡◌, ◌≤◌, not, ◌++◌, length, drop, nat_lt};
ghost use Rattle.refusals.specs.Answers.{answer};
ghost use Rattle.windows.specs.Windows.{token_of};
ghost use Rattle.windows.specs.Reads.{unless_eof, texts_between, interval_held, text_answer, text_after};

use crate::buffer::Buffer;
use characters::char_stream::{backward, past, upward};
use refusals::Refusal;
use tokens::token::Token;
use tokens::token_source::TokenSource;

impl<S: TokenSource> Buffer<S> {
    // Whether the tokens from `start` through `stop` are held.
    fn check_interval(&self, start: i32, stop: i32) -> Result<(), Refusal>
        ensures value { answer result ≡ interval_held self.now.window start stop }
    {
        if start < 0 {
            return Err(Refusal::Negative);
        }
        if backward(start, stop) {
            return Err(Refusal::BadInterval);
        }
        if (start as usize) < self.window.start() {
            return Err(Refusal::Dropped);
        }
        if self.window.end() < past(stop) {
            return Err(Refusal::NotHeld);
        }
        Ok(())
    }

    // The token of an index, if it is held and is no EOF.
    fn before_eof(&self, index: usize) -> Option<Token>
        ensures value { result ≡ unless_eof (token_of self.now.window index) }
    {
        self.window.get(index).filter(|token| !token.is_eof())
    }

    // Whether the texts of the tokens from one index on and below another fit a room. The two are no `Range`, which would be
    // cloned for each of the walks. The proof of a `try_fold` would not know what one turn hands to the next.
    fn fits(&self, from: usize, to: usize, room: usize) -> bool
        requires held { self.now.window.start ≤ from }
        ensures value { result ≡ not (nat_lt room (length (texts_between (S.TokenSource.text self.now.source) self.now.window from to))) }
    {
        let mut left = room;
        'sum: for at in from..to {
            let Some(token) = self.before_eof(at) else {
                return true;
            };
            let Some(rest) = left.checked_sub(self.source.text_len(&token)) else {
                return false;
            };
            left = rest;
        }
        true
    }

    // Writes the texts of the tokens from one index on and below another into an output that they fit.
    fn put(&self, from: usize, to: usize, out: &mut [u8]) -> usize
        requires held { self.now.window.start ≤ from }
        requires fits { length (texts_between (S.TokenSource.text self.now.source) self.now.window from to) ≤ length out.old }
        ensures value { result ≡ length (texts_between (S.TokenSource.text self.now.source) self.now.window from to) }
        ensures after { out.new ≡ texts_between (S.TokenSource.text self.now.source) self.now.window from to ++ drop result out.old }
    {
        let mut len = 0;
        'put: for at in from..to {
            let Some(token) = self.before_eof(at) else {
                return len;
            };
            let end = len + self.source.text_len(&token);
            self.source.write_text(&token, &mut out[len..end]).unwrap();
            len = end;
        }
        len
    }

    // Writes the texts of the tokens from `start` through `stop`, up to the EOF.
    pub fn text(&self, start: i32, stop: i32, out: &mut [u8]) -> Result<usize, Refusal>
        ensures value { answer result ≡ text_answer (S.TokenSource.text self.now.source) self.now.window start stop out.old }
        ensures after { out.new ≡ text_after (S.TokenSource.text self.now.source) self.now.window start stop out.old }
    {
        self.check_interval(start, stop)?;
        let from = upward(start);
        let to = past(stop);
        if !self.fits(from, to, out.len()) {
            return Err(Refusal::ShortOutput);
        }
        Ok(self.put(from, to, out))
    }
}
