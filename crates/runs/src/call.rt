// A call of a token stream as a value, and what it gives.
use tokens::token::Token;

// A release hands in a mark of a number.
#[derive(Clone, Copy, PartialEq, Eq, Debug)]
pub enum Call {
    Open(i32),
    Consume,
    La(i32),
    Lt(i32),
    Seek(i32),
    Index,
    Size,
    Mark,
    Release(i32),
    Get(i32),
    Text(i32, i32),
}

// What a call gives where it is not refused.
#[derive(Clone, Copy, PartialEq, Eq, Debug)]
pub enum Reply {
    Done,
    Number(i32),
    Count(usize),
    Token(Option<Token>),
}
