// The calls of an unbuffered token stream.
ghost use Rattle.std.specs.Prelude.{◌≡◌, ◌+◌, ◌-◌, ◌<◌, ◌≤◌, true, length, negsuc, ◌==◌, false, IfOk, IfErr};
ghost use Rattle.refusals.specs.declared.Refusal.TheVariants.{NotOpen};
ghost use Rattle.refusals.specs.Answers.{answer};
ghost use Rattle.streams.specs.Calls.{size_answer, mark_answer, marks_after_mark, release_answer, marks_after_release, status_with};
ghost use Rattle.streams.specs.Marks.{made, released, HandedBack};
ghost use Rattle.token_streams.specs.Unbuffered.{clamped, needed, unopened};
ghost use Rattle.token_streams.specs.Calls.{open_answer, after_open, behind, ahead, lt, after_lt, type_of, la, consume, after_consume, sought, after_sought, seek, after_seek, index_of, size_of, after_mark, after_release, get, text, text_left};
ghost use Rattle.token_streams.specs.Settled.{settled_view, settled_before};
ghost use Rattle.streams.specs.Streams.{IfShown, Becomes};
ghost use Rattle.token_streams.specs.Shown.{Shows, status_of};

use crate::token_stream::UnbufferedTokenStream;
use refusals::Refusal;
use std::cmp::Ordering;
use streams::mark::{Kept, Mark, Marks, Numbering};
use tokens::token::Token;
use tokens::token_source::TokenSource;
use windows::buffer::Buffer;

// The type that a look back answers where no token is, as the interface numbers it.
pub const TOKEN_INVALID_TYPE: i32 = 0;

// The type of a token, or of none.
fn type_of(token: Option<Token>) -> i32
    ensures value { result ≡ type_of token }
{
    token.map_or(TOKEN_INVALID_TYPE, |token| token.token_type)
}

// That the status stays, each call says for itself: it is about two values, so that no type holds it.
impl<S: TokenSource> UnbufferedTokenStream<S> {
    // A stream over a source, not open yet.
    pub fn new_unbuffered(token_source: S) -> Self
        ensures shows { Shows S.TokenSource result (unopened (record { list = S.TokenSource.coming token_source; text = S.TokenSource.text token_source })) }
    {
        UnbufferedTokenStream {
            buffer: Buffer::new(token_source),
            cursor: 0,
            before: None,
            marks: Marks::new(Numbering::Falling),
            open: false,
        }
    }

    // Opens the stream with so many places for tokens. Nothing is pulled yet.
    pub fn open(&mut self, capacity: i32) -> Result<(), Refusal>
        ensures value { IfShown (Shows S.TokenSource) self.old (λ u. answer result ≡ open_answer u capacity) }
        ensures after { Becomes (Shows S.TokenSource) self.old self.new (λ u. after_open u capacity) }
        ensures marks { (status_of self.new).marks ≡ (status_of self.old).marks }
        ensures stays { (status_of self.old).opened ≡ true → status_of self.new ≡ status_of self.old }
    {
        if self.open {
            return Err(Refusal::AlreadyOpen);
        }
        self.buffer.window.admit(capacity)?;
        self.open = true;
        Ok(())
    }

    // Refuses until the stream is open.
    fn opened(&self) -> Result<(), Refusal>
        ensures open { IfOk result (λ _. self.now.«open» ≡ true) }
        ensures closed { IfErr result (λ refusal. (self.now.«open» ≡ false) × (refusal ≡ NotOpen)) }
    {
        if !self.open {
            return Err(Refusal::NotOpen);
        }
        Ok(())
    }

    // The k-th token before the cursor, counted from 1.
    fn behind(&self, k: usize) -> Result<Option<Token>, Refusal>
        requires some { 1 ≤ k }
        ensures value { IfShown (Shows S.TokenSource) self.now (λ u. answer result ≡ behind u k) }
    {
        let Some(index) = self.cursor.checked_sub(k) else {
            return Ok(None);
        };
        if index >= self.buffer.window.start() {
            return Ok(self.buffer.window.get(index));
        }
        if k > 1 {
            return Err(Refusal::Dropped);
        }
        Ok(self.before)
    }

    // The k-th token from the cursor on, counted from 0, or the EOF where fewer remain.
    fn ahead(&mut self, k: usize) -> Result<Option<Token>, Refusal>
        requires few { k ≤ 2147483647 }
        requires opened { self.old.«open» ≡ true }
        ensures value { IfShown (Shows S.TokenSource) self.old (λ u. answer result ≡ ahead u k) }
        ensures after { Becomes (Shows S.TokenSource) self.old self.new (λ u. needed u (clamped u (u.cursor + k))) }
        ensures status { status_of self.new ≡ status_of self.old }
    {
        let at = self.buffer.see(self.cursor + k).ok_or(Refusal::WindowFull)?;
        Ok(self.buffer.window.get(at))
    }

    // The k-th token from the cursor on, or the EOF where fewer remain; for k below 0 the -k-th before it, if there is one.
    pub fn lt(&mut self, k: i32) -> Result<Option<Token>, Refusal>
        ensures value { IfShown (Shows S.TokenSource) self.old (λ u. answer result ≡ lt u k) }
        ensures after { Becomes (Shows S.TokenSource) self.old self.new (λ u. after_lt u k) }
        ensures status { status_of self.new ≡ status_of self.old }
    {
        self.opened()?;
        match k.cmp(&0) {
            Ordering::Less => self.behind(k.unsigned_abs() as usize),
            Ordering::Equal => Err(Refusal::ZeroOffset),
            Ordering::Greater => self.ahead(k as usize - 1),
        }
    }

    // The type of the token that `lt` gives.
    pub fn la(&mut self, k: i32) -> Result<i32, Refusal>
        ensures value { IfShown (Shows S.TokenSource) self.old (λ u. answer result ≡ la u k) }
        ensures after { Becomes (Shows S.TokenSource) self.old self.new (λ u. after_lt u k) }
        ensures status { status_of self.new ≡ status_of self.old }
    {
        Ok(type_of(self.lt(k)?))
    }

    // With no mark out, the floor comes to the cursor: of the tokens below, only the nearest is kept.
    fn settle(&mut self)
        ensures window { self.new.buffer.window ≡ settled_view (self.old.marks.out == 0) self.old.buffer.window self.old.cursor }
        ensures source { self.new.buffer.source ≡ self.old.buffer.source }
        ensures before { self.new.before ≡ settled_before (self.old.marks.out == 0) self.old.buffer.window self.old.cursor self.old.before }
        ensures cursor { self.new.cursor ≡ self.old.cursor }
        ensures status { status_of self.new ≡ status_of self.old }
    {
        if !self.marks.is_empty() {
            return;
        }
        let nearest = self.buffer.window.get(self.cursor.saturating_sub(1));
        self.before = nearest.or(self.before);
        self.buffer.window.drop_below(self.cursor);
    }

    // To the next token.
    pub fn consume(&mut self) -> Result<(), Refusal>
        ensures value { IfShown (Shows S.TokenSource) self.old (λ u. answer result ≡ consume u) }
        ensures after { Becomes (Shows S.TokenSource) self.old self.new after_consume }
        ensures status { status_of self.new ≡ status_of self.old }
    {
        self.opened()?;
        let at = self.buffer.see(self.cursor + 1).ok_or(Refusal::WindowFull)?;
        // The EOF is seen in the place of a token past it.
        if at == self.cursor {
            return Err(Refusal::EndOfStream);
        }
        self.cursor = at;
        self.settle();
        Ok(())
    }

    // To the token of an index, or to the EOF where the list is shorter.
    fn go_to(&mut self, index: usize) -> Result<(), Refusal>
        requires opened { self.old.«open» ≡ true }
        ensures value { IfShown (Shows S.TokenSource) self.old (λ u. answer result ≡ sought u index) }
        ensures after { Becomes (Shows S.TokenSource) self.old self.new (λ u. after_sought u index) }
        ensures status { status_of self.new ≡ status_of self.old }
    {
        if index < self.buffer.window.start() {
            return Err(Refusal::Dropped);
        }
        let at = self.buffer.see(index).ok_or(Refusal::WindowFull)?;
        self.cursor = at;
        self.settle();
        Ok(())
    }

    // The same for any number.
    pub fn seek(&mut self, index: i32) -> Result<(), Refusal>
        ensures value { IfShown (Shows S.TokenSource) self.old (λ u. answer result ≡ seek u index) }
        ensures after { Becomes (Shows S.TokenSource) self.old self.new (λ u. after_seek u index) }
        ensures status { status_of self.new ≡ status_of self.old }
    {
        self.opened()?;
        let index = usize::try_from(index).map_err(|_| Refusal::Negative)?;
        self.go_to(index)
    }

    // The index of the token under the cursor.
    pub fn index(&self) -> Result<i32, Refusal>
        ensures value { IfShown (Shows S.TokenSource) self.now (λ u. answer result ≡ index_of u) }
    {
        self.opened()?;
        Ok(self.cursor as i32)
    }

    // How many tokens are held from the floor on.
    pub fn size(&self) -> Result<i32, Refusal>
        ensures value { IfShown (Shows S.TokenSource) self.now (λ u. answer result ≡ size_of u) }
        ensures held { answer result ≡ size_answer (status_of self.now) (length self.now.buffer.window.tokens) }
        ensures places { IfOk result (λ _. length self.now.buffer.window.tokens ≤ 2048) }
    {
        self.opened()?;
        Ok((self.buffer.window.end() - self.buffer.window.start()) as i32)
    }

    // Keeps the tokens from the cursor on, until the mark comes back.
    pub fn mark(&mut self) -> Result<Mark, Refusal>
        ensures value { made result ≡ mark_answer (status_of self.old) (negsuc (length (status_of self.old).marks)) }
        ensures after { Becomes (Shows S.TokenSource) self.old self.new (λ u. after_mark u (negsuc (length (status_of self.old).marks))) }
        ensures status { status_of self.new ≡ status_with (status_of self.old) (marks_after_mark (status_of self.old) (negsuc (length (status_of self.old).marks))) }
    {
        self.opened()?;
        self.marks.mark()
    }

    // Takes the latest mark back; any other is handed back.
    pub fn release(&mut self, mark: Mark) -> Result<(), Kept>
        ensures value { released result ≡ release_answer (status_of self.old) mark.number }
        ensures back { HandedBack mark.number result }
        ensures after { Becomes (Shows S.TokenSource) self.old self.new (λ u. after_release u mark.number) }
        ensures status { status_of self.new ≡ status_with (status_of self.old) (marks_after_release (status_of self.old) mark.number) }
    {
        if let Err(refusal) = self.opened() {
            return Err(Kept { mark, refusal });
        }
        self.marks.release(mark)?;
        self.settle();
        Ok(())
    }

    // The token of an index that is held.
    pub fn get(&self, index: i32) -> Result<Token, Refusal>
        ensures value { IfShown (Shows S.TokenSource) self.now (λ u. answer result ≡ get u index) }
    {
        self.opened()?;
        self.buffer.get(index)
    }

    // Writes the texts of the held tokens from `start` through `stop`, up to the EOF.
    pub fn get_text_from_interval(
        &self,
        start: i32,
        stop: i32,
        out: &mut [u8],
    ) -> Result<usize, Refusal>
        ensures value { IfShown (Shows S.TokenSource) self.now (λ u. answer result ≡ text u start stop out.old) }
        ensures after { IfShown (Shows S.TokenSource) self.now (λ u. out.new ≡ text_left u start stop out.old) }
    {
        self.opened()?;
        self.buffer.text(start, stop, out)
    }

    // The same from the index of one token through that of another.
    pub fn get_text_from_tokens(
        &self,
        first: &Token,
        last: &Token,
        out: &mut [u8],
    ) -> Result<usize, Refusal>
        ensures value { IfShown (Shows S.TokenSource) self.now (λ u. answer result ≡ text u first.now.index last.now.index out.old) }
        ensures after { IfShown (Shows S.TokenSource) self.now (λ u. out.new ≡ text_left u first.now.index last.now.index out.old) }
    {
        self.get_text_from_interval(first.index, last.index, out)
    }

    // Gives the source back.
    pub fn close(self) -> S
        ensures source { result ≡ self.buffer.source }
    {
        self.buffer.source
    }
}
