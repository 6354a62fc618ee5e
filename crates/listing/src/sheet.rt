// From the bytes of a sheet to its listing.
ghost use Rattle.std.specs.Prelude.{◌≡◌, Some};
ghost use Rattle.listing.specs.declared.sheet.Stop.TheVariants.{Refused, NoMemory};
ghost use Rattle.listing.specs.Listing.{Listing, words};

use crate::lines::list;
use lexer::sheet_lexer::SheetLexer;
use refusals::Refusal;
use std::alloc::{AllocError, Global};
use std::error::Error;
use std::fmt;
use texts::utf8_text::Utf8Text;

// Why there is no listing.
#[derive(Clone, Copy, PartialEq, Eq, Debug)]
pub enum Stop {
    Refused(Refusal),
    NoMemory,
}

impl fmt::Display for Stop {
    ghost output = { λ stop. Some (words stop) };

    fn fmt<W: fmt::Write>(&self, f: &mut fmt::Formatter<W>) -> fmt::Result {
        match self {
            Stop::Refused(refusal) => f.write_str(refusal.word()),
            Stop::NoMemory => f.write_str("out of memory"),
        }
    }
}

impl Error for Stop {}

impl From<Refusal> for Stop {
    ghost from_gives = { λ refusal stop. stop ≡ Refused refusal };

    fn from(refusal: Refusal) -> Self {
        Self::Refused(refusal)
    }
}

impl From<AllocError> for Stop {
    ghost from_gives = { λ _ stop. stop ≡ NoMemory };

    fn from(_error: AllocError) -> Self {
        Self::NoMemory
    }
}

// The listing of the tokens of a sheet, which is a text in UTF-8.
pub fn list_sheet(heap: Global, bytes: &[u8]) -> Result<Vec<u8>, Stop>
    ensures listing { Listing bytes.now result }
{
    Utf8Text::check(bytes)?;
    Ok(list(heap, SheetLexer::new(Utf8Text::new(bytes)))?)
}
