// Laws that every stream of symbols keeps, each on the calls that it speaks of. What a law leaves as it was, it says as calls do.
#![tactic(auto)]

ghost use Rattle.std.specs.Prelude.{◌≡◌, ℕ, length, ℤ, pos, negsuc, ◌≤ℤ◌, ◌<ℤ◌, IfOk};
ghost use Rattle.refusals.specs.Answers.{gives, answer};
ghost use Rattle.streams.specs.Streams.{moved, with_marks, IfShown, Becomes};
ghost use Rattle.streams.specs.Calls.{la, consume, consumed, index_answer, mark_answer, marks_after_mark, status_with};
ghost use Rattle.stream_laws.specs.Returns.{mark_made};

use refusals::Refusal;
use streams::int_stream::IntStream;
use streams::mark::Mark;

// What was ahead of a step, the step, and what is behind after it. Each law has a struct of its own, so that its clauses
// call each result by what it is.
#[derive(Drop)]
pub struct Looks {
    pub ahead: Result<i32, Refusal>,
    pub step: Result<(), Refusal>,
    pub behind: Result<i32, Refusal>,
}

// What is ahead of a step that is accepted is behind after it.
pub fn ordered_lookahead<S: IntStream>(stream: &mut S) -> Looks
    ensures ordered_lookahead { IfShown S.IntStream.shows stream.old (λ s. (z : ℤ) → answer result.ahead ≡ gives z → answer result.step ≡ gives tt → answer result.behind ≡ gives z) }
    ensures ahead { IfShown S.IntStream.shows stream.old (λ s. answer result.ahead ≡ la s S.IntStream.NOTHING_BEFORE (pos 1)) }
    ensures step { IfShown S.IntStream.shows stream.old (λ s. answer result.step ≡ consume s) }
    ensures behind { IfShown S.IntStream.shows stream.old (λ s. answer result.behind ≡ la (consumed s) S.IntStream.NOTHING_BEFORE (negsuc 0)) }
    ensures after { Becomes S.IntStream.shows stream.old stream.new consumed }
    ensures status { S.IntStream.status stream.new ≡ S.IntStream.status stream.old }
    ensures unaltered { S.IntStream.unaltered stream.old stream.new }
{
    let ahead = stream.la(1);
    let step = stream.consume();
    let behind = stream.la(-1);
    Looks {
        ahead,
        step,
        behind,
    }
}

// The index before a step, the step, and the index after it.
#[derive(Drop)]
pub struct Indexes {
    pub before: Result<i32, Refusal>,
    pub step: Result<(), Refusal>,
    pub after: Result<i32, Refusal>,
}

// A step that is accepted leads to a greater index.
pub fn forward_movement<S: IntStream>(stream: &mut S) -> Indexes
    ensures forward_movement { IfShown S.IntStream.shows stream.old (λ s. (y : ℤ) → answer result.before ≡ gives y → answer result.step ≡ gives tt → ((z : ℤ) × (answer result.after ≡ gives z) × (y <ℤ z))) }
    ensures here { IfShown S.IntStream.shows stream.old (λ s. answer result.before ≡ index_answer s) }
    ensures step { IfShown S.IntStream.shows stream.old (λ s. answer result.step ≡ consume s) }
    ensures there { IfShown S.IntStream.shows stream.old (λ s. answer result.after ≡ index_answer (consumed s)) }
    ensures after { Becomes S.IntStream.shows stream.old stream.new consumed }
    ensures status { S.IntStream.status stream.new ≡ S.IntStream.status stream.old }
    ensures unaltered { S.IntStream.unaltered stream.old stream.new }
{
    let before = stream.index();
    let step = stream.consume();
    let after = stream.index();
    Indexes {
        before,
        step,
        after,
    }
}

// A look ahead, and one that is as far or further.
#[derive(Drop)]
pub struct Ends {
    pub near: Result<i32, Refusal>,
    pub far: Result<i32, Refusal>,
}

// Where a look ahead meets the EOF, so does every look further on.
pub fn end_stays<S: IntStream>(stream: &mut S, near: i32, far: i32) -> Ends
    ensures end_stays { IfShown S.IntStream.shows stream.old (λ s. pos 1 ≤ℤ near → near ≤ℤ far → answer result.near ≡ gives (negsuc 0) → answer result.far ≡ gives (negsuc 0)) }
    ensures near { IfShown S.IntStream.shows stream.old (λ s. answer result.near ≡ la s S.IntStream.NOTHING_BEFORE near) }
    ensures far { IfShown S.IntStream.shows stream.old (λ s. answer result.far ≡ la s S.IntStream.NOTHING_BEFORE far) }
    ensures after { Becomes S.IntStream.shows stream.old stream.new (λ s. s) }
    ensures status { S.IntStream.status stream.new ≡ S.IntStream.status stream.old }
    ensures unaltered { S.IntStream.unaltered stream.old stream.new }
{
    let near = stream.la(near);
    let far = stream.la(far);
    Ends { near, far }
}

// Goes anywhere.
fn wander<S: IntStream>(stream: &mut S, steps: usize, to: i32)
    ensures after { IfShown S.IntStream.shows stream.old (λ s. (j : ℕ) × S.IntStream.shows stream.new (moved s j)) }
    ensures status { S.IntStream.status stream.new ≡ S.IntStream.status stream.old }
    ensures unaltered { S.IntStream.unaltered stream.old stream.new }
{
    for _ in 0..steps {
        let _ = stream.consume();
    }
    let _ = stream.seek(to);
}

// The mark at the place that was left, and the seek back to it.
pub struct Return {
    pub mark: Mark,
    pub back: Result<(), Refusal>,
}

// While a mark is out, a seek back to the index where it was made is accepted and restores what is seen.
pub fn seek_back_restores<S: IntStream>(
    stream: &mut S,
    steps: usize,
    to: i32,
) -> Result<Return, Refusal>
    ensures seek_back_restores { Becomes S.IntStream.shows stream.old stream.new (λ s. with_marks s (S.IntStream.status stream.new).marks) }
    ensures accepted { IfShown S.IntStream.shows stream.old (λ s. IfOk result (λ q. answer q.back ≡ gives tt)) }
    ensures value { IfShown S.IntStream.shows stream.old (λ s. mark_made result ≡ mark_answer (S.IntStream.status stream.old) (S.IntStream.numbered (length (S.IntStream.status stream.old).marks))) }
    ensures status { IfShown S.IntStream.shows stream.old (λ s. S.IntStream.status stream.new ≡ status_with (S.IntStream.status stream.old) (marks_after_mark (S.IntStream.status stream.old) (S.IntStream.numbered (length (S.IntStream.status stream.old).marks)))) }
    ensures unaltered { S.IntStream.unaltered stream.old stream.new }
{
    let here = stream.index()?;
    let mark = stream.mark()?;
    wander(stream, steps, to);
    let back = stream.seek(here);
    Ok(Return { mark, back })
}
