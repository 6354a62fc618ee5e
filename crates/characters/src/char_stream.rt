// The input of a lexer or a character stream: code points at rising positions, asked by position.
ghost use Rattle.std.specs.Prelude.{◌≡◌, suc, ◌+◌, ◌^◌, ◌<◌, length, IfSome, if◌then◌else◌};
ghost use Rattle.std.proofs.Math.Utf8.{encode};
ghost use Rattle.std.specs.Char.{len_utf8};
ghost use Rattle.std.specs.Option.{option_map};
ghost use Rattle.refusals.specs.Answers.{answer};
ghost use Rattle.refusals.specs.Outputs.{written, overwritten};
ghost use Rattle.characters.specs.Text.{Text, Lawful, empty, item_at, on, back, start_from, cuts, part, shown, display};
ghost use Rattle.characters.specs.Signed.{item, offset, Returns, upward, past, backward, interval_check, interval};

use refusals::Refusal;

// A code point, and where the next one starts.
#[derive(Clone, Copy, PartialEq, Eq, Debug)]
pub struct CodePoint {
    pub code: u32,
    pub next: usize,
}

// The least position that is not below a number.
pub fn upward(index: i32) -> usize
    ensures value { result ≡ upward index }
{
    usize::try_from(index).unwrap_or(0)
}

// The least position that is above a number.
pub fn past(index: i32) -> usize
    ensures value { result ≡ past index }
{
    usize::try_from(index).map_or(0, |at| at + 1)
}

// Whether a stop is below a start less one.
pub fn backward(start: i32, stop: i32) -> bool
    ensures value { result ≡ backward start stop }
{
    stop < start && stop + 1 < start
}

// The character that shows a code.
fn shown(code: u32) -> char
    ensures value { result ≡ shown code }
{
    char::from_u32(code).unwrap_or(char::REPLACEMENT_CHARACTER)
}

// Writes a character in UTF-8 over an output of just its length. `encode_utf8` promises the text that it returns, and not what it
// leaves in the bytes that it was given, so that text is copied.
fn encode(c: char, out: &mut [u8])
    requires fits { length out.old ≡ len_utf8 c }
    ensures after { out.new ≡ encode c }
{
    let mut bytes = [0; 4];
    let text = c.encode_utf8(&mut bytes);
    out.copy_from_slice(text.as_bytes());
}

pub trait InputData: Sized {
    // the code points with their positions, and the size
    ghost meaning: { Self → Text };

    ghost lawful: { (s : Self) → Lawful (meaning s) };

    // The size: every position is below it.
    fn len(&self) -> usize
        ensures value { result ≡ (meaning self.now).size };

    // The code point that starts at a position.
    fn code_point(&self, at: usize) -> Option<CodePoint>
        ensures value { option_map (λ c. c.code) result ≡ item_at (meaning self.now) at }
        ensures next { IfSome result (λ c. c.next ≡ start_from (meaning self.now) (suc at)) }
        ensures small { IfSome result (λ c. c.code < 2 ^ 31) };

    // The first start at or after a position, or the size.
    fn start_from(&self, at: usize) -> usize
        ensures value { result ≡ start_from (meaning self.now) at };

    // The last start below a position.
    fn start_before(&self, at: usize) -> Option<usize>
        ensures value { result ≡ back (meaning self.now) at 1 };

    // The code points from one start to another, as a text of its own; none where these are no two starts in order. A `Range` of
    // the two would only be taken apart.
    fn part(&self, from: usize, to: usize) -> Self
        ensures value { meaning result ≡ (if cuts (meaning self.now) from to then part (meaning self.now) from to else empty) };

    // The code point that starts at a position.
    fn item(&self, index: i32) -> Option<i32>
        ensures value { result ≡ item (meaning self.now) index }
    {
        let at = usize::try_from(index).ok()?;
        self.code_point(at).map(|c| c.code as i32)
    }

    // Where this many starts on from a position lead.
    fn on(&self, from: usize, steps: usize) -> Option<usize>
        ensures value { result ≡ on (meaning self.now) from steps }
    {
        let mut at = from;
        for _ in 0..steps {
            if at >= self.len() {
                return None;
            }
            at = self.start_from(at + 1);
        }
        Some(at)
    }

    // Where this many starts back from a position lead.
    fn back(&self, from: usize, steps: usize) -> Option<usize>
        ensures value { result ≡ back (meaning self.now) from steps }
    {
        let mut at = from;
        for _ in 0..steps {
            at = self.start_before(at)?;
        }
        Some(at)
    }

    // Where a number of starts on from a position lead, or back for a number below 0.
    fn offset(&self, index: i32, item_offset: i32) -> Option<i32>
        ensures value { result ≡ offset (meaning self.now) index item_offset }
        ensures returns { Returns (meaning self.now) index item_offset result }
    {
        let from = usize::try_from(index).ok()?;
        if from > self.len() {
            return None;
        }
        let steps = item_offset.unsigned_abs() as usize;
        let at = if item_offset < 0 {
            self.back(from, steps)
        } else {
            self.on(from, steps)
        }?;
        Some(at as i32)
    }

    // Whether the text has the code points that start from `start` through `stop`, two numbers as the interface has them.
    fn check_interval(&self, start: i32, stop: i32) -> Result<(), Refusal>
        ensures value { answer result ≡ interval_check (meaning self.now) start stop }
    {
        let from = usize::try_from(start).map_err(|_| Refusal::Negative)?;
        let past = past(stop);
        if past < from {
            return Err(Refusal::BadInterval);
        }
        if from < self.len() && self.start_from(from) != from {
            return Err(Refusal::BadInterval);
        }
        if self.len() < past {
            return Err(Refusal::NotHeld);
        }
        Ok(())
    }

    // The code points that start from `start` through `stop`; none where the check refuses.
    fn interval(&self, start: i32, stop: i32) -> Self
        ensures value { meaning result ≡ interval (meaning self.now) start stop }
    {
        if self.check_interval(start, stop).is_ok() {
            self.part(upward(start), self.start_from(past(stop)))
        } else {
            // No two starts in order: the empty text.
            self.part(1, 0)
        }
    }

    // How many bytes the text takes in UTF-8. Each code point says where the next one starts.
    fn display_len(&self) -> usize
        ensures value { result ≡ length (display (meaning self.now)) }
    {
        let mut at = self.start_from(0);
        let mut len = 0;
        'walk: while let Some(point) = self.code_point(at) {
            len += shown(point.code).len_utf8();
            at = point.next;
        }
        len
    }

    // Writes the text in UTF-8 to the front of an output, and answers how many bytes that took.
    fn to_display(&self, out: &mut [u8]) -> Result<usize, Refusal>
        ensures value { answer result ≡ written (display (meaning self.now)) out.old }
        ensures after { out.new ≡ overwritten (display (meaning self.now)) out.old }
    {
        if self.display_len() > out.len() {
            return Err(Refusal::ShortOutput);
        }
        let mut at = self.start_from(0);
        let mut len = 0;
        'walk: while let Some(point) = self.code_point(at) {
            let c = shown(point.code);
            let end = len + c.len_utf8();
            encode(c, &mut out[len..end]);
            len = end;
            at = point.next;
        }
        Ok(len)
    }
}
