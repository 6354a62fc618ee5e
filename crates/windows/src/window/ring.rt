// A window's calls.
ghost use Rattle.std.specs.Prelude.{◌≡◌, ◌<◌, ◌≤◌, [], length, OnSome};
ghost use Rattle.refusals.specs.Answers.{answer};
ghost use Rattle.windows.specs.Windows.{end, reach, Bounded, admission, admitted, pushed, token_of, without};

use crate::window::Window;
use refusals::Refusal;
use tokens::token::Token;
use tokens::token_source::MOST_TOKENS;

const PLACES: usize = 2048;

const LEAST_CAPACITY: i32 = 2;

const MOST_CAPACITY: i32 = 2048;

// What stands in a place that holds no token yet: the places are a plain array of token records.
pub const BLANK: Token = Token {
    token_type: 0,
    channel: 0,
    start: 0,
    stop: 0,
    line: 0,
    column: 0,
    index: 0,
};

// What is so of every window each call says for itself: a model shows callers the view alone, without its invariant.
impl Window {
    // A window that holds nothing and admits no place yet.
    pub fn new() -> Self
        ensures value { result ≡ record { start = 0; tokens = []; capacity = 0 } }
        ensures bounds { Bounded result }
    {
        Window {
            places: [BLANK; PLACES],
            capacity: 0,
            start: 0,
            end: 0,
        }
    }

    // The index of the first token held, or of the next where none is.
    pub fn start(&self) -> usize
        ensures value { result ≡ self.now.start }
        ensures few { result ≤ 1048576 }
        ensures bounds { Bounded self.now }
    {
        self.start
    }

    // The index after the last token held.
    pub fn end(&self) -> usize
        ensures value { result ≡ end self.now }
        ensures few { result ≤ 1048576 }
        ensures places { length self.now.tokens ≤ 2048 }
        ensures bounds { Bounded self.now }
    {
        self.end
    }

    // The index that no token held may have, nor any index above.
    pub fn reach(&self) -> usize
        ensures value { result ≡ reach self.now }
        ensures admitted { self.now.capacity ≤ 2048 }
        ensures bounds { Bounded self.now }
    {
        self.start + self.capacity
    }

    // Admits this many of the places.
    pub fn admit(&mut self, capacity: i32) -> Result<(), Refusal>
        ensures value { answer result ≡ admission capacity }
        ensures after { self.new ≡ admitted self.old capacity }
        ensures was { Bounded self.old }
        ensures bounds { Bounded self.new }
    {
        // What is so of every window is known once a field is used, and a refusal says it too.
        let _ = &self.capacity;
        if !(LEAST_CAPACITY..=MOST_CAPACITY).contains(&capacity) {
            return Err(Refusal::Capacity);
        }
        self.capacity = capacity as usize;
        Ok(())
    }

    // Takes a token in and stamps it with its index, if there is a place for it.
    pub fn push(&mut self, token: Token)
        ensures after { self.new ≡ pushed self.old token }
        ensures was { Bounded self.old }
        ensures bounds { Bounded self.new }
    {
        if self.end - self.start >= PLACES || self.end >= MOST_TOKENS {
            return;
        }
        // The token is stamped in its place, which lends it.
        let place = self.end % PLACES;
        self.places[place] = token;
        self.places[place].set_token_index(self.end as i32);
        self.end += 1;
    }

    // The token of an index, if it is held.
    pub fn get(&self, index: usize) -> Option<Token>
        ensures value { result ≡ token_of self.now index }
        ensures few { OnSome result (index < 1048576) }
        ensures bounds { Bounded self.now }
    {
        if !(self.start..self.end).contains(&index) {
            return None;
        }
        Some(self.places[index % PLACES])
    }

    // Lets the tokens below an index go.
    pub fn drop_below(&mut self, index: usize)
        ensures after { self.new ≡ without self.old index }
        ensures was { Bounded self.old }
        ensures bounds { Bounded self.new }
    {
        self.start = index.clamp(self.start, self.end);
    }
}
