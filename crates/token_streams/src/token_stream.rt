// A token stream that holds no more than its marks and its lookahead ask for.
ghost use Rattle.std.specs.Prelude.{◌≡◌, ◌≤◌, true, false};
ghost use Rattle.streams.specs.Marks.{falls};

use streams::mark::Marks;
use tokens::token::Token;
use windows::buffer::Buffer;

pub mod calls;
pub mod symbols;

// The window's first index is the floor. `before` is the token just below it, if there is one, which a look back by one
// still shows once the window has dropped it. `open` is a flag of its own, though the window's capacity is 0 just until then:
// each call asks whether the stream is open, and none how large the window is.
#[derive(Drop)]
pub struct UnbufferedTokenStream<S> {
    buffer: Buffer<S>,
    cursor: usize,
    before: Option<Token>,
    marks: Marks,
    open: bool,
    ghost few: { cursor ≤ 1048576 },
    ghost falling: { falls marks.numbering ≡ true },
    ghost unmarked: { «open» ≡ false → marks.out ≡ 0 },
}
