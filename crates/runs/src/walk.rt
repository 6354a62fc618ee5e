// A walk along a source's list through a window.
ghost use Rattle.std.specs.Prelude.{◌≡◌};
ghost use Rattle.refusals.specs.Answers.{answer};
ghost use Rattle.runs.specs.Walks.{come_to};

use refusals::Refusal;
use token_streams::token_stream::UnbufferedTokenStream;
use tokens::token::Token;
use tokens::token_source::TokenSource;

// The token under the cursor of a stream over a source after so many steps. Every token of the list comes, in order,
// through a window of any capacity, and at its end the EOF.
pub fn token_after<S: TokenSource + Drop>(
    token_source: S,
    capacity: i32,
    steps: usize,
) -> Result<Option<Token>, Refusal>
    ensures every_token_comes { answer result ≡ come_to (S.TokenSource.coming token_source) capacity steps }
{
    let mut stream = UnbufferedTokenStream::new_unbuffered(token_source);
    stream.open(capacity)?;
    for _ in 0..steps {
        // The EOF is not passed: a step from there is refused, and moves nothing.
        let _ = stream.consume();
    }
    stream.lt(1)
}
