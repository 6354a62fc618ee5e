// UTF-8 as RFC 3629 defines it: the code point that a text begins with, and whether bytes are a text.
#![tactic(auto)]

ghost use Rattle.std.specs.Prelude.{◌≡◌, ◌+◌, ◌↔◌, IsTrue, IsUtf8, MatchOption, slice_index};
ghost use Rattle.refusals.specs.Answers.{answer};
ghost use Rattle.std.specs.Int.{IsInRange};
ghost use Rattle.utf8.specs.Reading.{Front, Proper, Checked, Agrees, Decoded};
ghost use Rattle.utf8.specs.Rfc3629.{Tail};

use refusals::Refusal;

// A text has at most so many bytes, and a text of larger units at most so many units.
pub const MOST_BYTES: usize = 65_536;

// A text of fewer bytes is walked, and any other is handed to the library.
const FEW_BYTES: usize = 16;

// Whether the bytes are a text that can be read: UTF-8, and at most 65,536 of them.
pub fn check(bytes: &[u8]) -> Result<(), Refusal>
    ensures checked { Checked bytes.now (answer result) }
    ensures agrees { Agrees bytes.now }
    ensures decoded { Decoded bytes.now (answer result) }
{
    // There are two ways for the sake of speed alone: the library reads a long text in a fraction of the walk's time, but a call of it
    // costs as much as a walk over some ten bytes.
    if bytes.len() < FEW_BYTES {
        return is_utf8(bytes).then_some(()).ok_or(Refusal::BadText);
    }
    if bytes.len() > MOST_BYTES {
        return Err(Refusal::TooLong);
    }
    str::from_utf8(bytes)
        .map(|_| ())
        .map_err(|_| Refusal::BadText)
}

// Whether the bytes are UTF-8, by a walk over their code points.
fn is_utf8(bytes: &[u8]) -> bool
    ensures value { IsTrue result ↔ IsUtf8 bytes.now }
{
    let mut rest = bytes;
    'walk: while let [lead, after @ ..] = rest {
        // Most of a sheet is ASCII, which needs no further look.
        if *lead < 0x80 {
            rest = after;
            continue;
        }
        let Some((_, next)) = front(rest) else {
            return false;
        };
        rest = next;
    }
    true
}

// The code point that the bytes begin with, and the bytes after it.
// It stays a call: put into its caller, it keeps that from being inlined, and the lexer takes 1.6 times as long over ASCII.
#[inline(never)]
pub fn front(bytes: &[u8]) -> Option<(u32, &[u8])>
    ensures cases { Front bytes.now result }
{
    let [lead, rest @ ..] = bytes else {
        return None;
    };
    match lead.leading_ones() {
        0 => Some((u32::from(*lead), rest)),
        2 => two(bytes),
        3 => three(bytes),
        4 => four(bytes),
        // A tail byte with no lead, or a lead that no form has.
        _ => None,
    }
}

// The first byte's ones choose the form, as the standard counts them. Each longer form has a function, whose pattern names its bytes.
fn two(bytes: &[u8]) -> Option<(u32, &[u8])>
    requires lead { IsInRange 0xC0 0xDF (slice_index bytes.now 0) }
    ensures cases { Front bytes.now result }
{
    let [a, b, rest @ ..] = bytes else {
        return None;
    };
    let code = (u32::from(*a) - 0xC0) * 64 + tail(*b)?;
    Some((proper(code, 0x80)?, rest))
}

fn three(bytes: &[u8]) -> Option<(u32, &[u8])>
    requires lead { IsInRange 0xE0 0xEF (slice_index bytes.now 0) }
    ensures cases { Front bytes.now result }
{
    let [a, b, c, rest @ ..] = bytes else {
        return None;
    };
    let code = ((u32::from(*a) - 0xE0) * 64 + tail(*b)?) * 64 + tail(*c)?;
    Some((proper(code, 0x800)?, rest))
}

fn four(bytes: &[u8]) -> Option<(u32, &[u8])>
    requires lead { IsInRange 0xF0 0xF7 (slice_index bytes.now 0) }
    ensures cases { Front bytes.now result }
{
    let [a, b, c, d, rest @ ..] = bytes else {
        return None;
    };
    let code = (((u32::from(*a) - 0xF0) * 64 + tail(*b)?) * 64 + tail(*c)?) * 64 + tail(*d)?;
    Some((proper(code, 0x1_0000)?, rest))
}

// The six bits that a tail byte holds.
fn tail(b: u8) -> Option<u32>
    ensures cases { MatchOption result (Tail b → ⊥) (λ bits. Tail b × (bits + 0x80 ≡ b)) }
{
    match b {
        0x80..=0xBF => Some(u32::from(b) - 0x80),
        _ => None,
    }
}

// The code, unless a shorter form is there for it or it is no scalar value.
fn proper(code: u32, least: u32) -> Option<u32>
    ensures cases { MatchOption result (Proper least code → ⊥) (λ c. (c ≡ code) × Proper least c) }
{
    if code < least {
        return None;
    }
    match code {
        0..=0xD7FF | 0xE000..=0x10_FFFF => Some(code),
        _ => None,
    }
}
