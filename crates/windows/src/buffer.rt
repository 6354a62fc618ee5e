// A source with the window that is filled from it.
ghost use Rattle.std.specs.Prelude.{◌≡◌, ◌<◌, ◌≤◌, true, List, [], length, IfSome};
ghost use Rattle.refusals.specs.Answers.{answer};
ghost use Rattle.tokens.specs.declared.token.Token.{Token};
ghost use Rattle.windows.specs.Windows.{end, Bounded};
ghost use Rattle.windows.specs.Held.{Holds, Pulled, at_end, wants, pulled_to, within_reach, seen_now, seen_at};
ghost use Rattle.windows.specs.Reads.{token_found, token_answer};

use crate::window::Window;
use refusals::Refusal;
use tokens::token::Token;
use tokens::token_source::{MOST_TOKENS, TokenSource};

mod texts;

// What a window's calls say of it, a buffer's type says of the window that it holds. That no text changes, each call that
// pulls says for itself: it is about two values, so that no type holds it.
#[derive(Drop)]
pub struct Buffer<S> {
    pub source: S,
    pub window: Window,
    ghost bounds: { Bounded window },
}

impl<S: TokenSource> Buffer<S> {
    // A buffer that holds nothing yet.
    pub fn new(source: S) -> Self
        ensures source { result.source ≡ source }
        ensures window { result.window ≡ record { start = 0; tokens = []; capacity = 0 } }
    {
        Buffer {
            source,
            window: Window::new(),
        }
    }

    // Whether the last token held is the EOF.
    fn at_end(&self) -> bool
        ensures value { result ≡ at_end self.now.window }
    {
        let last = self.window.end().saturating_sub(1);
        self.window.get(last).is_some_and(|token| token.is_eof())
    }

    // Whether one token more must be pulled to see the one of an index, and can be.
    fn wants(&self, index: usize) -> bool
        ensures value { result ≡ wants self.now.window index }
        ensures admitted { result ≡ true → self.now.window.capacity ≤ 2048 }
    {
        let end = self.window.end();
        // A source's list ends before `MOST_TOKENS`.
        end <= index && end < self.window.reach() && end < MOST_TOKENS && !self.at_end()
    }

    // Takes the next token from the source into the window.
    fn pull(&mut self)
        ensures after { Pulled self.old.window (S.TokenSource.coming self.old.source) self.new.window (S.TokenSource.coming self.new.source) }
        ensures texts { S.TokenSource.text self.new.source ≡ S.TokenSource.text self.old.source }
    {
        let token = self.source.next_token();
        self.window.push(token);
    }

    // Pulls until the token of an index is held, as far as the reach and the list allow.
    pub fn pull_to(&mut self, index: usize)
        ensures start { self.new.window.start ≡ self.old.window.start }
        ensures capacity { self.new.window.capacity ≡ self.old.window.capacity }
        ensures after { (list : List Token) → Holds list self.old.window (S.TokenSource.coming self.old.source) → Holds list self.new.window (S.TokenSource.coming self.new.source) }
        ensures pulled { (list : List Token) → Holds list self.old.window (S.TokenSource.coming self.old.source) → end self.new.window ≡ pulled_to (length list) self.old.window index }
        ensures texts { S.TokenSource.text self.new.source ≡ S.TokenSource.text self.old.source }
    {
        'pull: while self.wants(index) {
            self.pull();
        }
    }

    // An index, if it is below the reach.
    fn within_reach(&self, index: usize) -> Option<usize>
        ensures value { result ≡ within_reach self.now.window index }
    {
        (index < self.window.reach()).then_some(index)
    }

    // The index where an index is seen in what is held: its own, or the EOF's.
    fn seen(&self, index: usize) -> Option<usize>
        ensures value { result ≡ seen_now self.now.window index }
        ensures few { IfSome result (λ i. i < 1048576) }
    {
        let end = self.window.end();
        if index < end {
            self.within_reach(index)
        } else if self.at_end() {
            self.within_reach(end.saturating_sub(1))
        } else {
            None
        }
    }

    // The index where the token of an index is seen: its own, or the EOF's where the list is shorter. It is pulled; none
    // where it lies at the reach or above.
    pub fn see(&mut self, index: usize) -> Option<usize>
        ensures value { (list : List Token) → Holds list self.old.window (S.TokenSource.coming self.old.source) → result ≡ seen_at (length list) self.old.window index }
        ensures held { IfSome result (λ i. i < end self.new.window) }
        ensures few { IfSome result (λ i. i < 1048576) }
        ensures start { self.new.window.start ≡ self.old.window.start }
        ensures capacity { self.new.window.capacity ≡ self.old.window.capacity }
        ensures after { (list : List Token) → Holds list self.old.window (S.TokenSource.coming self.old.source) → Holds list self.new.window (S.TokenSource.coming self.new.source) }
        ensures pulled { (list : List Token) → Holds list self.old.window (S.TokenSource.coming self.old.source) → end self.new.window ≡ pulled_to (length list) self.old.window index }
        ensures texts { S.TokenSource.text self.new.source ≡ S.TokenSource.text self.old.source }
    {
        self.pull_to(index);
        self.seen(index)
    }

    // The token of an index that is held.
    fn find(&self, index: usize) -> Result<Token, Refusal>
        ensures value { answer result ≡ token_found self.now.window index }
    {
        if index < self.window.start() {
            return Err(Refusal::Dropped);
        }
        self.window.get(index).ok_or(Refusal::NotHeld)
    }

    // The same for any number.
    pub fn get(&self, index: i32) -> Result<Token, Refusal>
        ensures value { answer result ≡ token_answer self.now.window index }
    {
        let index = usize::try_from(index).map_err(|_| Refusal::Negative)?;
        self.find(index)
    }
}
