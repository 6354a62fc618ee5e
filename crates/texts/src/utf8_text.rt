// Texts in UTF-8, whose positions count bytes.
ghost use Rattle.std.specs.Prelude.{◌≡◌, ◌+◌, ◌<◌, ◌≤◌, true, false, length, MatchOption, slice_index};
ghost use Rattle.std.proofs.Math.Utf8.{scalars, encodes};
ghost use Rattle.std.specs.List.{prefix_len};
ghost use Rattle.std.specs.Str.{chars};
ghost use Rattle.refusals.specs.Answers.{answer};
ghost use Rattle.characters.specs.Text.{cuts};
ghost use Rattle.utf8.specs.Reading.{Checked};
ghost use Rattle.texts.specs.Encoded.{encoded_text, goes_on, AllGoOn, Reads};
ghost use Rattle.texts.specs.Keeps.{encoded_lawful};

use characters::char_stream::{CodePoint, InputData};
use refusals::Refusal;

// A text over the caller's bytes, which are well formed.
#[derive(Clone, Copy)]
pub struct Utf8Text<'a> {
    bytes: &'a [u8],
    ghost few: { length bytes.now ≤ 65536 },
    ghost encoded: { encodes (chars bytes.now) ≡ bytes.now },
    ghost valid: { scalars (chars bytes.now) ≡ true },
}

impl<'a> Utf8Text<'a> {
    // Whether the bytes are a text: too many of them are refused first, then ill-formed ones.
    pub fn check(bytes: &[u8]) -> Result<(), Refusal>
        ensures checked { Checked bytes.now (answer result) }
    {
        utf8::check(bytes)
    }

    // The text of the bytes; the empty one where the check refuses them.
    pub fn new(bytes: &'a [u8]) -> Self
        ensures value { Reads bytes.now (encoded_text result.bytes.now) }
    {
        let bytes = if utf8::check(bytes).is_ok() {
            bytes
        } else {
            &[]
        };
        Utf8Text { bytes }
    }

    // Whether two positions are starts in order.
    fn cuts(&self, from: usize, to: usize) -> bool
        ensures value { result ≡ cuts (encoded_text self.now.bytes.now) from to }
    {
        from <= to && to <= self.len() && self.start_from(from) == from && self.start_from(to) == to
    }
}

// Whether a byte goes on with a code point, and starts none.
fn goes_on(byte: u8) -> bool
    ensures value { result ≡ goes_on byte }
{
    matches!(byte, 0x80..=0xBF)
}

// How many bytes at the front go on with a code point.
fn going_on(bytes: &[u8]) -> usize
    ensures value { result ≡ prefix_len goes_on bytes.now }
{
    bytes.iter().take_while(|byte| goes_on(**byte)).count()
}

// The last place where a code point starts.
fn last_start(bytes: &[u8]) -> Option<usize>
    ensures value { MatchOption result (AllGoOn bytes.now 0) (λ i. (i < length bytes.now) × (goes_on (slice_index bytes.now i) ≡ false) × AllGoOn bytes.now (i + 1)) }
{
    bytes.iter().rposition(|byte| !goes_on(*byte))
}

impl<'a> InputData for Utf8Text<'a> {
    ghost meaning = { λ s. encoded_text s.bytes.now };

    ghost lawful = { λ s. encoded_lawful s.bytes.now s.few s.encoded };

    fn len(&self) -> usize {
        self.bytes.len()
    }

    fn code_point(&self, at: usize) -> Option<CodePoint> {
        // Most of a sheet is ASCII, which needs no further look.
        let lead = *self.bytes.get(at)?;
        if lead < 0x80 {
            return Some(CodePoint {
                code: u32::from(lead),
                next: at + 1,
            });
        }
        let (code, rest) = utf8::front(&self.bytes[at..])?;
        Some(CodePoint {
            code,
            next: self.bytes.len() - rest.len(),
        })
    }

    fn start_from(&self, at: usize) -> usize {
        let start = at.min(self.bytes.len());
        start + going_on(&self.bytes[start..])
    }

    fn start_before(&self, at: usize) -> Option<usize> {
        if at > self.bytes.len() {
            return Some(self.bytes.len());
        }
        last_start(&self.bytes[..at])
    }

    fn part(&self, from: usize, to: usize) -> Self {
        let bytes = if self.cuts(from, to) {
            &self.bytes[from..to]
        } else {
            &[]
        };
        Utf8Text { bytes }
    }
}
