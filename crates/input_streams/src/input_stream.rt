// The stream of the characters of a text: its symbols are the code points at their positions, and the EOF at the size.
ghost use Rattle.std.specs.Prelude.{◌≡◌, ℕ, ◌≤◌, [], pos, negsuc, refl};
ghost use Rattle.std.proofs.Common.{◌∙◌};
ghost use Rattle.refusals.specs.Answers.{answer, gives};
ghost use Rattle.characters.specs.Text.{on, back};
ghost use Rattle.characters.specs.Signed.{interval_check, interval};
ghost use Rattle.streams.specs.Streams.{Stream, moved, IfShown};
ghost use Rattle.streams.specs.Calls.{index_answer};
ghost use Rattle.streams.specs.Marks.{numbered};
ghost use Rattle.input_streams.specs.Symbols.{open_with, characters, number_at, reached};
ghost use Rattle.input_streams.specs.Keeps.{shown_lawful};

use characters::char_stream::InputData;
use refusals::Refusal;
use std::cmp::Ordering;
use streams::int_stream::{EOF, IntStream};
use streams::mark::{Kept, Mark, Marks, Numbering};
use texts::units::{CodePoints8, CodePoints16, CodePoints32};
use texts::utf8_text::Utf8Text;

// The number of every mark.
const MARK_NUMBER: i32 = -1;

// The cursor is on the symbol at `index`, which is a start of the text: `Shows` says this, since a ghost field that says it
// asks for `D: InputData` wherever the type is named.
#[derive(Drop)]
pub struct InputStream<D> {
    text: D,
    index: usize,
    marks: Marks,
    ghost inside: { index ≤ 65536 },
    ghost alike: { (n : ℕ) → numbered marks.numbering n ≡ negsuc 0 },
}

// Bytes, each a symbol of its own.
pub type ByteStream<'a> = InputStream<CodePoints8<'a>>;

// Code points that fit 8, 16 and 32 bits. Bytes are those of 8, so that one type has two names.
pub type CodePoint8BitCharStream<'a> = InputStream<CodePoints8<'a>>;

pub type CodePoint16BitCharStream<'a> = InputStream<CodePoints16<'a>>;

pub type CodePoint32BitCharStream<'a> = InputStream<CodePoints32<'a>>;

// Code points in UTF-8, whose indexes count bytes.
pub type Utf8CharStream<'a> = InputStream<Utf8Text<'a>>;

impl<D: InputData> InputStream<D> {
    ghost use Rattle.input_streams.specs.Shown.{marks_of, Shown};

    // A stream at the front of a text.
    pub fn new(text: D) -> Self
        ensures shows { Shown D.InputData result (characters (D.InputData.meaning text) [] 0) }
        ensures text { result.text ≡ text }
    {
        let index = text.start_from(0);
        InputStream {
            text,
            index,
            marks: Marks::new(Numbering::Fixed(MARK_NUMBER)),
        }
    }

    // Back to the first symbol, whatever was known of the cursor.
    pub fn reset(&mut self)
        ensures shows { Shown D.InputData self.new (characters (D.InputData.meaning self.new.text) (marks_of self.new) 0) }
        ensures after { (s : Stream) → Shown D.InputData self.old s → Shown D.InputData self.new (moved s 0) }
        ensures marks { self.new.marks ≡ self.old.marks }
        ensures unaltered { self.old.text ≡ self.new.text }
    {
        self.index = self.text.start_from(0);
    }

    // Whether the text has the code points that start from `start` through `stop`.
    pub fn check_text(&self, start: i32, stop: i32) -> Result<(), Refusal>
        ensures value { answer result ≡ interval_check (D.InputData.meaning self.now.text) start stop }
    {
        self.text.check_interval(start, stop)
    }

    // The code points that start from `start` through `stop`; none where the check refuses.
    pub fn text(&self, start: i32, stop: i32) -> D
        ensures value { D.InputData.meaning result ≡ interval (D.InputData.meaning self.now.text) start stop }
    {
        self.text.interval(start, stop)
    }

    // The number of the symbol at a start.
    fn number_at(&self, at: usize) -> i32
        ensures value { result ≡ number_at (D.InputData.meaning self.now.text) at }
    {
        self.text
            .code_point(at)
            .map_or(EOF, |point| point.code as i32)
    }

    // The number of the symbol at a start that a walk led to, and another number where it led nowhere.
    fn reached(&self, walk: Option<usize>, nowhere: i32) -> i32
        ensures value { result ≡ reached (D.InputData.meaning self.now.text) nowhere walk }
    {
        walk.map_or(nowhere, |at| self.number_at(at))
    }

    // The number of the symbol so many after the one under the cursor.
    fn number_ahead(&self, steps: usize) -> i32
        ensures value { result ≡ reached (D.InputData.meaning self.now.text) (negsuc 0) (on (D.InputData.meaning self.now.text) self.now.index steps) }
    {
        // What a lexer asks most is under the cursor.
        if steps == 0 {
            return self.number_at(self.index);
        }
        self.reached(self.text.on(self.index, steps), EOF)
    }

    // The number of the symbol so many before the one under the cursor.
    fn number_behind(&self, steps: usize) -> i32
        ensures value { result ≡ reached (D.InputData.meaning self.now.text) (negsuc 0) (back (D.InputData.meaning self.now.text) self.now.index steps) }
    {
        self.reached(self.text.back(self.index, steps), Self::NOTHING_BEFORE)
    }
}

impl<D: InputData> IntStream for InputStream<D> {
    ghost use Rattle.input_streams.specs.Shown.{marks_of, Shown};

    // As the interface numbers it.
    const NOTHING_BEFORE: i32 = -1;

    ghost NOTHING_BEFORE = { negsuc 0 };

    ghost status = { λ x. open_with (marks_of x) };

    ghost numbered = { λ _. negsuc 0 };

    ghost extent = { λ x. (D.InputData.meaning x.text).size };

    ghost shows = { λ x. Shown D.InputData x };

    ghost lawful = { λ x. shown_lawful (D.InputData.meaning x.text) (D.InputData.lawful x.text) x.index (marks_of x) };

    ghost unaltered = { λ x y. x.text ≡ y.text };

    ghost same = { λ _. refl };

    ghost chained = { λ _ _ _ p q. p ∙ q };

    fn la(&mut self, k: i32) -> Result<i32, Refusal> {
        match k.cmp(&0) {
            Ordering::Less => Ok(self.number_behind(k.unsigned_abs() as usize)),
            Ordering::Equal => Err(Refusal::ZeroOffset),
            Ordering::Greater => Ok(self.number_ahead(k as usize - 1)),
        }
    }

    fn consume(&mut self) -> Result<(), Refusal> {
        let point = self
            .text
            .code_point(self.index)
            .ok_or(Refusal::EndOfStream)?;
        self.index = point.next;
        Ok(())
    }

    fn seek(&mut self, index: i32) -> Result<(), Refusal> {
        let index = usize::try_from(index).map_err(|_| Refusal::Negative)?;
        self.index = self.text.start_from(index);
        Ok(())
    }

    fn index(&self) -> Result<i32, Refusal>
        ensures value { IfShown (Shown D.InputData) self.now (λ s. answer result ≡ index_answer s) }
        ensures position { answer result ≡ gives (pos self.now.index) }
    {
        Ok(self.index as i32)
    }

    fn size(&self) -> Result<i32, Refusal> {
        Ok(self.text.len() as i32)
    }

    fn mark(&mut self) -> Result<Mark, Refusal> {
        self.marks.mark()
    }

    fn release(&mut self, mark: Mark) -> Result<(), Kept> {
        self.marks.release(mark)
    }
}

#[cfg(test)]
mod tests {
    use super::*;
    use std::test::Fail;

    #[test]
    fn reset_goes_back_to_the_first_symbol(rt: HostRuntime) -> Result<(), Fail> {
        let mut stream = InputStream::new(Utf8Text::new(b"7mm"));
        stream.consume()?;
        assert_eq!(rt; stream.la(1)?, 'm' as i32);
        stream.reset();
        assert_eq!(rt; stream.index()?, 0);
        assert_eq!(rt; stream.la(1)?, '7' as i32);
        Ok(())
    }
}
