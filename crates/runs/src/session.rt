// A token stream with the marks that it has given.
ghost use Rattle.std.specs.Prelude.{◌≡◌, true};
ghost use Rattle.streams.specs.Marks.{falls};

use streams::mark::Pile;
use token_streams::token_stream::UnbufferedTokenStream;

mod running;

// Every mark of the stream that is out lies on the pile.
pub struct Session<S> {
    stream: UnbufferedTokenStream<S>,
    marks: Pile,
    ghost all: { marks.len ≡ stream.marks.out },
    ghost falling: { falls marks.numbering ≡ true },
}
