// Texts of 8-, 16- and 32-bit units, each of which holds one code point.
ghost use Rattle.std.specs.Prelude.{◌≡◌, ℕ, ◌^◌, ◌<◌, ◌≤◌, map, length, ⊤, if◌then◌else◌};
ghost use Rattle.std.specs.List.{All};
ghost use Rattle.refusals.specs.Answers.{answer};
ghost use Rattle.characters.specs.Text.{empty, cuts, part};
ghost use Rattle.texts.specs.Units.{all_small, units_check, in_a_row, units_text, row_of};
ghost use Rattle.texts.specs.Keeps.{row_lawful};

use characters::char_stream::{CodePoint, InputData};
use refusals::Refusal;
use std::alloc::AllocError;

const MOST_UNITS: usize = utf8::MOST_BYTES;

// A code point has at most 31 bits.
const CODE_LIMIT: u32 = 1 << 31;

// A unit of text: a number. `Into<u32>` would promise a relation of a unit and its number, where contracts map a function over the
// units.
pub trait Unit: Copy {
    ghost number: { Self → ℕ };

    fn number(self) -> u32
        ensures value { result ≡ number self };
}

impl Unit for u8 {
    ghost number = { λ u. u };

    fn number(self) -> u32 {
        u32::from(self)
    }
}

impl Unit for u16 {
    ghost number = { λ u. u };

    fn number(self) -> u32 {
        u32::from(self)
    }
}

impl Unit for u32 {
    ghost number = { λ u. u };

    fn number(self) -> u32 {
        self
    }
}

// A text over the caller's units, with one code point at each position. Whoever names the type owes no bound on `T`, and without one
// the type cannot keep that each unit is a code point, which is a fact of `Unit::number`.
pub struct Units<'a, T> {
    units: &'a [T],
    ghost few: { length units.now ≤ 65536 },
}

// By hand, since a generic struct with a ghost field cannot derive `Clone`, and a derived `Copy` would ask for `T: Copy`.
impl<'a, T> Clone for Units<'a, T> {
    ghost is_clone = { λ x y. y ≡ x };

    ghost is_infallible = { λ _. ⊤ };

    fn clone(&self) -> Result<Units<'a, T>, AllocError> {
        Ok(*self)
    }
}

impl<'a, T> Copy for Units<'a, T> {}

pub type CodePoints8<'a> = Units<'a, u8>;

pub type CodePoints16<'a> = Units<'a, u16>;

pub type CodePoints32<'a> = Units<'a, u32>;

impl<'a, T: Unit> Units<'a, T> {
    // Whether the units are a text: too many of them are refused first, then one that is no code point.
    pub fn check(units: &[T]) -> Result<(), Refusal>
        ensures value { answer result ≡ units_check (map T.Unit.number units.now) }
    {
        if units.len() > MOST_UNITS {
            return Err(Refusal::TooLong);
        }
        if all_small(units) {
            Ok(())
        } else {
            Err(Refusal::BadText)
        }
    }

    // The text of the units; the empty one where the check refuses them.
    pub fn new(units: &'a [T]) -> Self
        ensures value { row_of T.Unit.number result.units.now ≡ units_text (map T.Unit.number units.now) }
        ensures uncut { in_a_row (map T.Unit.number result.units.now) ≡ units_text (map T.Unit.number units.now) }
        ensures small { All (λ unit. T.Unit.number unit < 2 ^ 31) result.units.now }
    {
        let units = if Self::check(units).is_ok() {
            units
        } else {
            &[]
        };
        Units { units }
    }
}

// Whether every unit is a code point.
fn all_small<T: Unit>(units: &[T]) -> bool
    ensures value { result ≡ all_small (map T.Unit.number units.now) }
{
    units
        .iter()
        .map(|unit| unit.number())
        .all(|number| number < CODE_LIMIT)
}

impl<'a, T: Unit> InputData for Units<'a, T> {
    ghost meaning = { λ s. row_of T.Unit.number s.units.now };

    ghost lawful = { λ s. row_lawful T.Unit.number s.units.now s.few };

    fn len(&self) -> usize {
        self.units.len()
    }

    fn code_point(&self, at: usize) -> Option<CodePoint> {
        // The check has refused larger units, so that what is left of this one is its number.
        let code = self.units.get(at)?.number() % CODE_LIMIT;
        Some(CodePoint { code, next: at + 1 })
    }

    fn start_from(&self, at: usize) -> usize {
        at.min(self.units.len())
    }

    fn start_before(&self, at: usize) -> Option<usize> {
        self.back(at, 1)
    }

    // Each position up to the length is a start, so that a number of steps is a distance.
    fn on(&self, from: usize, steps: usize) -> Option<usize> {
        if steps == 0 {
            return Some(from);
        }
        let at = from.checked_add(steps)?;
        (at <= self.units.len()).then_some(at)
    }

    // From past the length, the first step back leads to the length.
    fn back(&self, from: usize, steps: usize) -> Option<usize> {
        if steps == 0 {
            return Some(from);
        }
        from.min(self.units.len() + 1).checked_sub(steps)
    }

    fn part(&self, from: usize, to: usize) -> Self
        ensures value { row_of T.Unit.number result.units.now ≡ (if cuts (row_of T.Unit.number self.now.units.now) from to then part (row_of T.Unit.number self.now.units.now) from to else empty) }
        ensures small { All (λ unit. T.Unit.number unit < 2 ^ 31) self.now.units.now → All (λ unit. T.Unit.number unit < 2 ^ 31) result.units.now }
    {
        let units = self.units.get(from..to).unwrap_or(&[]);
        Units { units }
    }
}
