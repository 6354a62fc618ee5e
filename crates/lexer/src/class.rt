// The classes of the symbols of a sheet.
ghost use Rattle.std.specs.Prelude.{◌≡◌, pos};
ghost use Rattle.lexer.specs.Classes.{class};
ghost use Rattle.lexer.specs.Lexemes.{channel};
ghost use Rattle.lexer.specs.Lexed.{type_of, goes_on};

use self::Class::{Blank, Digit, Hash, Letter, LineFeed, Other};

// The number of a class is the type of the tokens that begin with a symbol of it.
#[derive(Clone, Copy, PartialEq, Eq, Debug)]
pub enum Class {
    Letter = 1,
    Digit = 2,
    LineFeed = 3,
    Blank = 4,
    Hash = 5,
    Other = 6,
}

// The class of each symbol below 128. It stands in memory once, where a `const` would be copied at each read.
static CLASSES: [Class; 128] = [
    Other, Other, Other, Other, Other, Other, Other, Other, Other, Blank, LineFeed, Other, Other,
    Blank, Other, Other, Other, Other, Other, Other, Other, Other, Other, Other, Other, Other,
    Other, Other, Other, Other, Other, Other, Blank, Other, Other, Hash, Other, Other, Other,
    Other, Other, Other, Other, Other, Other, Other, Other, Other, Digit, Digit, Digit, Digit,
    Digit, Digit, Digit, Digit, Digit, Digit, Other, Other, Other, Other, Other, Other, Other,
    Letter, Letter, Letter, Letter, Letter, Letter, Letter, Letter, Letter, Letter, Letter, Letter,
    Letter, Letter, Letter, Letter, Letter, Letter, Letter, Letter, Letter, Letter, Letter, Letter,
    Letter, Letter, Other, Other, Other, Other, Other, Other, Letter, Letter, Letter, Letter,
    Letter, Letter, Letter, Letter, Letter, Letter, Letter, Letter, Letter, Letter, Letter, Letter,
    Letter, Letter, Letter, Letter, Letter, Letter, Letter, Letter, Letter, Letter, Other, Other,
    Other, Other, Other,
];

// The class of a symbol.
pub fn class_of(code: u32) -> Class
    ensures value { result ≡ class code }
{
    if code < 128 {
        CLASSES[code as usize]
    } else {
        Other
    }
}

impl Class {
    // The type of the tokens that begin with a symbol of this class.
    pub fn token_type(self) -> i32
        ensures value { result ≡ pos (type_of self) }
    {
        self as i32
    }

    // The channel of those tokens, a number as the interface has it: space and remarks hide from a parser, each on its own.
    pub fn channel(self) -> i32
        ensures value { result ≡ pos (channel (type_of self)) }
    {
        match self {
            Blank => 1,
            Hash => 2,
            _ => 0,
        }
    }

    // Whether a run that began with a symbol of this class goes on with another symbol.
    pub fn goes_on(self, code: u32) -> bool
        ensures value { result ≡ goes_on self code }
    {
        match self {
            Letter | Digit | Blank => class_of(code) == self,
            Hash => code != u32::from(b'\n'),
            LineFeed | Other => false,
        }
    }
}
