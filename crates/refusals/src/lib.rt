// The refusals: what a call answers when it cannot do what was asked. Each has the number that stands for it in every output.
#![tactic(auto)]

ghost use Rattle.std.specs.Prelude.{◌≡◌, Some};
ghost use Rattle.refusals.specs.Numbers.{number, meaning};

use std::error::Error;
use std::fmt;

#[derive(Clone, Copy, PartialEq, Eq, Debug)]
pub enum Refusal {
    ZeroOffset = 1,
    EndOfStream = 2,
    WindowFull = 3,
    Dropped = 4,
    Negative = 5,
    NotHeld = 6,
    WrongMark = 7,
    MarksUsedUp = 8,
    NotOpen = 9,
    Capacity = 10,
    BadText = 11,
    TooLong = 12,
    BadInterval = 13,
    ShortOutput = 14,
    BadList = 15,
    AlreadyOpen = 16,
}

impl Refusal {
    // The number of the refusal.
    pub fn number(self) -> u8
        ensures value { result ≡ number self }
    {
        self as u8
    }

    // The words for a person to read, which `Display` prints.
    pub fn word(self) -> &'static str
        ensures value { result.now ≡ meaning self }
    {
        match self {
            Refusal::ZeroOffset => "zero offset",
            Refusal::EndOfStream => "end of stream",
            Refusal::WindowFull => "window full",
            Refusal::Dropped => "dropped",
            Refusal::Negative => "negative",
            Refusal::NotHeld => "not held",
            Refusal::WrongMark => "wrong mark",
            Refusal::MarksUsedUp => "marks used up",
            Refusal::NotOpen => "not open",
            Refusal::Capacity => "capacity",
            Refusal::BadText => "bad text",
            Refusal::TooLong => "too long",
            Refusal::BadInterval => "bad interval",
            Refusal::ShortOutput => "short output",
            Refusal::BadList => "bad list",
            Refusal::AlreadyOpen => "already open",
        }
    }
}

impl fmt::Display for Refusal {
    ghost output = { λ r. Some (meaning r) };

    fn fmt<W: fmt::Write>(&self, f: &mut fmt::Formatter<W>) -> fmt::Result {
        f.write_str(self.word())
    }
}

impl Error for Refusal {}
