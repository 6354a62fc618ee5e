// A text of any kind.
ghost use Rattle.run_calls.specs.declared.text.AnyText.TheVariants.{Utf8, Bytes, Halves, Words};

use characters::char_stream::{CodePoint, InputData};
use refusals::Refusal;
use scripts::line::Units;
use texts::units::{CodePoints8, CodePoints16, CodePoints32};
use texts::utf8_text::Utf8Text;

#[derive(Clone, Copy)]
pub enum AnyText<'a> {
    Utf8(Utf8Text<'a>),
    Bytes(CodePoints8<'a>),
    Halves(CodePoints16<'a>),
    Words(CodePoints32<'a>),
}

// Whether the units of an input are a text.
pub(crate) fn check_units(units: &Units) -> Result<(), Refusal> {
    match units {
        Units::Utf8(bytes) => Utf8Text::check(bytes.as_slice()),
        Units::Bytes(bytes) => CodePoints8::check(bytes.as_slice()),
        Units::Halves(halves) => CodePoints16::check(halves.as_slice()),
        Units::Words(words) => CodePoints32::check(words.as_slice()),
    }
}

// The bytes of an input that is written in bytes, and accepted; else none.
fn bytes_of<'a>(units: &'a Units) -> &'a [u8] {
    match units {
        Units::Utf8(bytes) | Units::Bytes(bytes) if check_units(units).is_ok() => bytes.as_slice(),
        _ => &[],
    }
}

// What an input is read as: its text, and its bytes where it is written in bytes.
#[derive(Clone, Copy)]
pub struct Input<'a> {
    pub text: AnyText<'a>,
    pub bytes: &'a [u8],
}

impl<'a> Input<'a> {
    pub(crate) fn empty() -> Self {
        Input {
            text: AnyText::Utf8(Utf8Text::new(&[])),
            bytes: &[],
        }
    }

    // Units that the check refuses are read as an empty input.
    pub(crate) fn new(units: &'a Units) -> Self {
        Input {
            text: AnyText::new(units),
            bytes: bytes_of(units),
        }
    }
}

impl<'a> AnyText<'a> {
    // The text of units; the empty one where the check refuses them.
    fn new(units: &'a Units) -> Self {
        match units {
            Units::Utf8(bytes) => AnyText::Utf8(Utf8Text::new(bytes.as_slice())),
            Units::Bytes(bytes) => AnyText::Bytes(CodePoints8::new(bytes.as_slice())),
            Units::Halves(halves) => AnyText::Halves(CodePoints16::new(halves.as_slice())),
            Units::Words(words) => AnyText::Words(CodePoints32::new(words.as_slice())),
        }
    }
}

// Each method asks the text of the kind at hand: an enum has no shorter form for that, and `part` makes a text of its own
// kind, which a `dyn` value cannot.
impl<'a> InputData for AnyText<'a> {
    ghost meaning = { elim [
      | Utf8 t ↦ ⟦<Utf8Text<'a> as InputData>⟧.meaning t
      | Bytes t ↦ ⟦<CodePoints8<'a> as InputData>⟧.meaning t
      | Halves t ↦ ⟦<CodePoints16<'a> as InputData>⟧.meaning t
      | Words t ↦ ⟦<CodePoints32<'a> as InputData>⟧.meaning t
    ] };

    ghost lawful = { elim [
      | Utf8 t ↦ ⟦<Utf8Text<'a> as InputData>⟧.lawful t
      | Bytes t ↦ ⟦<CodePoints8<'a> as InputData>⟧.lawful t
      | Halves t ↦ ⟦<CodePoints16<'a> as InputData>⟧.lawful t
      | Words t ↦ ⟦<CodePoints32<'a> as InputData>⟧.lawful t
    ] };

    fn len(&self) -> usize {
        match self {
            AnyText::Utf8(text) => text.len(),
            AnyText::Bytes(text) => text.len(),
            AnyText::Halves(text) => text.len(),
            AnyText::Words(text) => text.len(),
        }
    }

    fn code_point(&self, at: usize) -> Option<CodePoint> {
        match self {
            AnyText::Utf8(text) => text.code_point(at),
            AnyText::Bytes(text) => text.code_point(at),
            AnyText::Halves(text) => text.code_point(at),
            AnyText::Words(text) => text.code_point(at),
        }
    }

    fn start_from(&self, at: usize) -> usize {
        match self {
            AnyText::Utf8(text) => text.start_from(at),
            AnyText::Bytes(text) => text.start_from(at),
            AnyText::Halves(text) => text.start_from(at),
            AnyText::Words(text) => text.start_from(at),
        }
    }

    fn start_before(&self, at: usize) -> Option<usize> {
        match self {
            AnyText::Utf8(text) => text.start_before(at),
            AnyText::Bytes(text) => text.start_before(at),
            AnyText::Halves(text) => text.start_before(at),
            AnyText::Words(text) => text.start_before(at),
        }
    }

    fn part(&self, from: usize, to: usize) -> Self {
        match self {
            AnyText::Utf8(text) => AnyText::Utf8(text.part(from, to)),
            AnyText::Bytes(text) => AnyText::Bytes(text.part(from, to)),
            AnyText::Halves(text) => AnyText::Halves(text.part(from, to)),
            AnyText::Words(text) => AnyText::Words(text.part(from, to)),
        }
    }
}
