// Lists of calls on an unbuffered stream.
ghost use Rattle.std.specs.Prelude.{◌≡◌, true, [], ◌∷◌, map, length, negsuc};
ghost use Rattle.refusals.specs.Answers.{answer};
ghost use Rattle.refusals.specs.Outputs.{overwritten};
ghost use Rattle.streams.specs.Marks.{numbers, latest};
ghost use Rattle.streams.specs.Calls.{mark_answer, release_answer};
ghost use Rattle.token_streams.specs.Calls.{after_mark, after_release};
ghost use Rattle.token_streams.specs.Unbuffered.{Unbuffered, unopened};
ghost use Rattle.streams.specs.Streams.{IfShown, Becomes};
ghost use Rattle.token_streams.specs.Shown.{Shows, status_of};
ghost use Rattle.runs.specs.Replies.{reply_of};
ghost use Rattle.runs.specs.Runs.{replied, after, left_by, replies, after_all, left_by_all, run_answer, calls_made};
ghost use Rattle.runs.specs.Laws.{ShowsTheList, GivenBack};

use crate::call::{Call, Reply};
use crate::session::Session;
use refusals::Refusal;
use streams::mark::{Kept, Mark, Marks, Numbering, Pile};
use token_streams::token_stream::UnbufferedTokenStream;
use tokens::token_source::TokenSource;

// A mark of a number, and the ledger that made it: no mark is made but by a ledger.
fn stranger(number: i32) -> (Marks, Mark)
    ensures number { result.1.number ≡ number }
    ensures latest { numbers result.0.numbering result.0.out ≡ number ∷ [] }
{
    let mut marks = Marks::new(Numbering::Fixed(number));
    let mark = marks.mark().unwrap();
    (marks, mark)
}

impl<S: TokenSource> Session<S> {
    // A stream over a source, with no call made yet.
    pub fn new(token_source: S) -> Self
        ensures shows { Shows S.TokenSource result.stream (unopened (record { list = S.TokenSource.coming token_source; text = S.TokenSource.text token_source })) }
    {
        Session {
            stream: UnbufferedTokenStream::new_unbuffered(token_source),
            marks: Pile::new(Numbering::Falling),
        }
    }

    // Makes a mark, and keeps it.
    fn mark(&mut self) -> Result<i32, Refusal>
        ensures value { answer result ≡ mark_answer (status_of self.old.stream) (negsuc (length (status_of self.old.stream).marks)) }
        ensures after { Becomes (Shows S.TokenSource) self.old.stream self.new.stream (λ u. after_mark u (negsuc (length (status_of self.old.stream).marks))) }
    {
        let mark = self.stream.mark()?;
        let number = mark.number();
        self.marks.push(mark).unwrap();
        Ok(number)
    }

    // Hands in a mark of a number. Marks are known by their numbers alone, so a stranger's does for any; the one on the pile
    // goes to the stranger in its place.
    fn release(&mut self, number: i32) -> Result<(), Refusal>
        ensures value { answer result ≡ release_answer (status_of self.old.stream) number }
        ensures after { Becomes (Shows S.TokenSource) self.old.stream self.new.stream (λ u. after_release u number) }
    {
        let (mut stranger, mark) = stranger(number);
        match self.stream.release(mark) {
            Ok(()) => {
                let own = self.marks.pop().unwrap();
                stranger.release(own).unwrap();
                Ok(())
            }
            Err(Kept { mark, refusal }) => {
                stranger.release(mark).unwrap();
                Err(refusal)
            }
        }
    }

    // Makes a call.
    pub fn call(&mut self, call: Call, out: &mut [u8]) -> Result<Reply, Refusal>
        ensures value { IfShown (Shows S.TokenSource) self.old.stream (λ u. reply_of result ≡ replied u out.old call) }
        ensures after { Becomes (Shows S.TokenSource) self.old.stream self.new.stream (λ u. after u call) }
        ensures output { IfShown (Shows S.TokenSource) self.old.stream (λ u. out.new ≡ left_by u out.old call) }
    {
        match call {
            Call::Open(capacity) => self.stream.open(capacity).map(|()| Reply::Done),
            Call::Consume => self.stream.consume().map(|()| Reply::Done),
            Call::La(k) => self.stream.la(k).map(Reply::Number),
            Call::Lt(k) => self.stream.lt(k).map(Reply::Token),
            Call::Seek(index) => self.stream.seek(index).map(|()| Reply::Done),
            Call::Index => self.stream.index().map(Reply::Number),
            Call::Size => self.stream.size().map(Reply::Number),
            Call::Mark => self.mark().map(Reply::Number),
            Call::Release(mark) => self.release(mark).map(|()| Reply::Done),
            Call::Get(index) => self
                .stream
                .get(index)
                .map(|token| Reply::Token(Some(token))),
            Call::Text(start, stop) => {
                let written = self.stream.get_text_from_interval(start, stop, out);
                written.map(Reply::Count)
            }
        }
    }

    // Makes one call after the other, and keeps what each answered. None is made where there is no room for all answers.
    pub fn run(
        &mut self,
        calls: &[Call],
        out: &mut [u8],
        answers: &mut [Result<Reply, Refusal>],
    ) -> Result<usize, Refusal>
        ensures value { answer result ≡ run_answer calls.now answers.old }
        ensures replies { IfShown (Shows S.TokenSource) self.old.stream (λ u. map reply_of answers.new ≡ overwritten (replies u out.old calls.now) (map reply_of answers.old)) }
        ensures after { Becomes (Shows S.TokenSource) self.old.stream self.new.stream (λ u. after_all u (calls_made calls.now answers.old)) }
        ensures output { IfShown (Shows S.TokenSource) self.old.stream (λ u. out.new ≡ left_by_all u out.old (calls_made calls.now answers.old)) }
        ensures shows_the_list { IfShown (Shows S.TokenSource) self.old.stream (λ u. ShowsTheList u out.old (calls_made calls.now answers.old)) }
    {
        if answers.len() < calls.len() {
            return Err(Refusal::ShortOutput);
        }
        for (at, call) in calls.iter().enumerate() {
            // By its index: nothing is known of the answers after a walk that lends each of them.
            answers[at] = self.call(*call, out);
        }
        Ok(calls.len())
    }

    // Gives the source back, with what was not pulled. The marks come back first.
    pub fn close(self) -> S
        ensures source { IfShown (Shows S.TokenSource) self.stream (λ u. GivenBack u (S.TokenSource.coming result) (S.TokenSource.text result)) }
    {
        let Session {
            mut stream,
            mut marks,
        } = self;
        'back: while let Some(mark) = marks.pop() {
            stream.release(mark).unwrap();
        }
        stream.close()
    }
}
