// An unbuffered token stream as a stream of symbols: the types of its tokens. Each call is the stream's own of that name,
// whose contract says more, since it speaks of tokens.
ghost use Rattle.std.specs.Prelude.{◌≡◌, length, pos, negsuc};
ghost use Rattle.std.proofs.Common.{sym};
ghost use Rattle.token_streams.specs.Shown.{Shows, status_of};
ghost use Rattle.token_streams.specs.Symbols.{SymbolsOf, Unaltered, unaltered_same, unaltered_chained};
ghost use Rattle.token_streams.specs.Keeps.{keeps, lawful};

use crate::token_stream::UnbufferedTokenStream;
use crate::token_stream::calls::TOKEN_INVALID_TYPE;
use refusals::Refusal;
use streams::int_stream::IntStream;
use streams::mark::{Kept, Mark};
use tokens::token_source::TokenSource;

impl<S: TokenSource> IntStream for UnbufferedTokenStream<S> {
    // As the interface numbers it.
    const NOTHING_BEFORE: i32 = TOKEN_INVALID_TYPE;

    ghost NOTHING_BEFORE = { pos 0 };

    ghost status = { λ x. status_of x };

    ghost numbered = { λ n. negsuc n };

    ghost extent = { λ x. length x.buffer.window.tokens };

    ghost shows = { λ x s. SymbolsOf (Shows S.TokenSource x) s };

    ghost lawful = { λ x s of. keeps (Shows S.TokenSource x) (status_of x) (λ u t. (lawful t, sym t.same_status)) s of };

    ghost unaltered = { λ x y. Unaltered (Shows S.TokenSource x) (Shows S.TokenSource y) };

    ghost same = { λ x. unaltered_same (Shows S.TokenSource x) };

    ghost chained = { λ x y z f g. unaltered_chained (Shows S.TokenSource x) (Shows S.TokenSource y) (Shows S.TokenSource z) f g };

    fn la(&mut self, k: i32) -> Result<i32, Refusal> {
        UnbufferedTokenStream::la(self, k)
    }

    fn consume(&mut self) -> Result<(), Refusal> {
        UnbufferedTokenStream::consume(self)
    }

    fn seek(&mut self, index: i32) -> Result<(), Refusal> {
        UnbufferedTokenStream::seek(self, index)
    }

    fn index(&self) -> Result<i32, Refusal> {
        UnbufferedTokenStream::index(self)
    }

    fn size(&self) -> Result<i32, Refusal> {
        UnbufferedTokenStream::size(self)
    }

    fn mark(&mut self) -> Result<Mark, Refusal> {
        UnbufferedTokenStream::mark(self)
    }

    fn release(&mut self, mark: Mark) -> Result<(), Kept> {
        UnbufferedTokenStream::release(self, mark)
    }
}
