// How far a list of numbers agrees with the symbols that come in a stream.
#![tactic(auto)]

ghost use Rattle.std.specs.Prelude.{◌≡◌, ℕ, ◌<◌, true, length, IfOk};
ghost use Rattle.refusals.specs.Answers.{answer};
ghost use Rattle.streams.specs.Streams.{moved, IfShown, Becomes};
ghost use Rattle.count_ahead.specs.Agreement.{numbers_coming, Longest, tallied, counted};

use refusals::Refusal;
use streams::int_stream::{EOF, IntStream};

// Steps along the symbols that agree, and stays at the last one that was compared.
fn agreeing<S: IntStream>(stream: &mut S, wanted: &[i32]) -> Result<usize, Refusal>
    requires opened { (S.IntStream.status stream.old).opened ≡ true }
    requires marked { 0 < length (S.IntStream.status stream.old).marks }
    ensures value { IfShown S.IntStream.shows stream.old (λ s. answer result ≡ tallied s wanted.now) }
    ensures after { IfShown S.IntStream.shows stream.old (λ s. (j : ℕ) × S.IntStream.shows stream.new (moved s j)) }
    ensures status { S.IntStream.status stream.new ≡ S.IntStream.status stream.old }
    ensures unaltered { S.IntStream.unaltered stream.old stream.new }
{
    for (count, number) in wanted.iter().enumerate() {
        if stream.la(1)? != *number {
            return Ok(count);
        }
        let agreed = count + 1;
        // Nothing comes after the EOF, and what nobody wants need not be seen.
        if *number == EOF || agreed == wanted.len() {
            return Ok(agreed);
        }
        stream.consume()?;
    }
    Ok(wanted.len())
}

// How many symbols, from the cursor on and through the EOF, agree with the front of the wanted numbers.
pub fn count_ahead<S: IntStream>(stream: &mut S, wanted: &[i32]) -> Result<usize, Refusal>
    ensures value { IfShown S.IntStream.shows stream.old (λ s. answer result ≡ counted s wanted.now) }
    ensures longest { IfShown S.IntStream.shows stream.old (λ s. IfOk result (λ n. Longest n (numbers_coming s) wanted.now)) }
    ensures after { Becomes S.IntStream.shows stream.old stream.new (λ s. s) }
    ensures status { S.IntStream.status stream.new ≡ S.IntStream.status stream.old }
    ensures unaltered { S.IntStream.unaltered stream.old stream.new }
{
    let here = stream.index()?;
    let mark = stream.mark()?;
    let count = agreeing(stream, wanted);
    // While the mark is out the way back is open, so there is no refusal to pass on.
    let _ = stream.seek(here);
    stream.release(mark).unwrap();
    count
}
