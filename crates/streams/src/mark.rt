// A mark keeps what a stream may go back to, until it is given back.
ghost use Rattle.std.specs.Prelude.{◌≡◌, ◌≤◌, true};

use refusals::Refusal;

mod ledger;
mod stacking;

// A mark is made by a ledger and taken back by one, which spends it. A program cannot let it go before: its `drop` asks for
// a spent mark, and nobody holds one. `spent` is a flag since that is proved of each program: a type with no `drop` would
// keep the rule by the compiler alone.
pub struct Mark {
    number: i32,
    spent: bool,
}

impl Drop for Mark {
    fn drop(self)
        requires spent { self.spent ≡ true }
    {
        let Mark {
            number: _,
            spent: _,
        } = self;
    }
}

// A release that was refused hands the mark back.
pub struct Kept {
    pub mark: Mark,
    pub refusal: Refusal,
}

// How the marks of a stream are numbered: all alike, or -1, -2 and so on. It is a value and no type, since a mark of any number
// that a script names is made by a ledger.
#[derive(Clone, Copy, PartialEq, Eq, Debug)]
pub enum Numbering {
    Fixed(i32),
    Falling,
}

// The marks of one stream that are out: no more than a `u8` counts, which contracts and other crates know by `few` alone.
#[derive(Drop)]
pub struct Marks {
    numbering: Numbering,
    out: u8,
    ghost few: { out ≤ 255 },
}

// Marks that a stream gave, kept one upon the other. They are still to be given back: a pile can be let go only when it is
// empty. Its fields are those of `Marks`, and what both do with the two is the numbering's: one struct for them would only
// lengthen each clause.
pub struct Pile {
    numbering: Numbering,
    len: u8,
    ghost few: { len ≤ 255 },
}

impl Drop for Pile {
    fn drop(self)
        requires empty { self.len ≡ 0 }
    {
        let Pile {
            numbering: _,
            len: _,
        } = self;
    }
}
