// A stream of symbols: look ahead and back, step, go to an index, and keep a place by a mark.
ghost use Rattle.std.specs.Prelude.{◌≡◌, ℕ, length, ℤ, pos};
ghost use Rattle.refusals.specs.Answers.{answer};
ghost use Rattle.streams.specs.Streams.{Status, Stream, Lawful, with_marks, IfShown, Becomes};
ghost use Rattle.streams.specs.Calls.{la, consume, consumed, seek, sought_out, index_answer, size_answer, mark_answer, marks_after_mark, release_answer, marks_after_release, status_with};
ghost use Rattle.streams.specs.Marks.{made, released, HandedBack};

use crate::mark::{Kept, Mark};
use refusals::Refusal;

// What la answers at the end of a stream and beyond.
pub const EOF: i32 = -1;

// A stream that has dropped symbols no longer has them all, so a contract here speaks of every stream of symbols that
// this one shows. A stream that is made shows one, and what it shows changes as the clauses `after` say, no more. What a call
// leaves as it was, a clause of its own says: it is about two values, so that no type can hold it.
pub trait IntStream: Sized {
    // what a look back answers where nothing is: each kind of stream has its number, as the interface asks
    const NOTHING_BEFORE: i32;

    ghost NOTHING_BEFORE: { ℤ };

    // whether it is open, and the marks that are out
    ghost status: { Self → Status };

    // the number of a mark that is made while so many are out
    ghost numbered: { ℕ → ℤ };

    // what its size counts
    ghost extent: { Self → ℕ };

    // the streams of symbols that it shows
    ghost shows: { Self → Stream → Type 0 };

    ghost lawful: { (x : Self) (s : Stream) → shows x s → Lawful s × (s.status ≡ status x) };

    // what lies behind the symbols, and that no call here alters
    ghost unaltered: { Self → Self → Type 0 };

    ghost same: { (x : Self) → unaltered x x };

    ghost chained: { (x y z : Self) → unaltered x y → unaltered y z → unaltered x z };

    // The k-th symbol from the cursor on, or the -k-th before it.
    fn la(&mut self, k: i32) -> Result<i32, Refusal>
        ensures value { IfShown shows self.old (λ s. answer result ≡ la s NOTHING_BEFORE k) }
        ensures after { Becomes shows self.old self.new (λ s. s) }
        ensures status { status self.new ≡ status self.old }
        ensures unaltered { unaltered self.old self.new };

    // To the next symbol.
    fn consume(&mut self) -> Result<(), Refusal>
        ensures value { IfShown shows self.old (λ s. answer result ≡ consume s) }
        ensures after { Becomes shows self.old self.new consumed }
        ensures status { status self.new ≡ status self.old }
        ensures unaltered { unaltered self.old self.new };

    // To the first symbol at or after an index, or to the EOF.
    fn seek(&mut self, index: i32) -> Result<(), Refusal>
        ensures value { IfShown shows self.old (λ s. answer result ≡ seek s index) }
        ensures after { Becomes shows self.old self.new (λ s. sought_out s index) }
        ensures status { status self.new ≡ status self.old }
        ensures unaltered { unaltered self.old self.new };

    // The index of the symbol under the cursor.
    fn index(&self) -> Result<i32, Refusal>
        ensures value { IfShown shows self.now (λ s. answer result ≡ index_answer s) };

    // How many symbols there are, as this kind of stream counts them.
    fn size(&self) -> Result<i32, Refusal>
        ensures value { answer result ≡ size_answer (status self.now) (extent self.now) };

    // Keeps what is held from here on.
    fn mark(&mut self) -> Result<Mark, Refusal>
        ensures value { made result ≡ mark_answer (status self.old) (numbered (length (status self.old).marks)) }
        ensures after { Becomes shows self.old self.new (λ s. with_marks s (status self.new).marks) }
        ensures status { status self.new ≡ status_with (status self.old) (marks_after_mark (status self.old) (numbered (length (status self.old).marks))) }
        ensures unaltered { unaltered self.old self.new };

    // Takes the latest mark back; a refused one is handed back.
    fn release(&mut self, mark: Mark) -> Result<(), Kept>
        ensures value { released result ≡ release_answer (status self.old) mark.number }
        ensures back { HandedBack mark.number result }
        ensures after { Becomes shows self.old self.new (λ s. with_marks s (status self.new).marks) }
        ensures status { status self.new ≡ status_with (status self.old) (marks_after_release (status self.old) mark.number) }
        ensures unaltered { unaltered self.old self.new };
}
