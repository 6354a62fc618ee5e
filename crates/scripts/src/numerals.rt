// Numbers and units as a script writes them.
ghost use Rattle.std.specs.Prelude.{◌≡◌, ◌≤◌, length, List, ℕ, Option, IfOk, vec_items, filter, None, cond, nat_lt};
ghost use Rattle.std.specs.Option.{option_map};
ghost use Rattle.scripts.specs.Words.{dark, words};
ghost use Rattle.scripts.specs.Numerals.{natural, number, half, whole, every, pair, paired, joined_bytes};

use crate::words::{SPACE, Words};
use std::alloc::{AllocError, Global};

const MOST: u64 = u32::MAX as u64;

// A number or a unit that one word writes.
pub trait Numeral: Drop {
    // What a word writes.
    ghost reads: { List ℕ → Option Self };

    fn read(word: &[u8]) -> Option<Self>
    where
        Self: Sized,
        ensures value { result ≡ reads word.now };
}

// The number that digits of a base write, within 32 bits. They are walked here, since the library reads numbers from a `&str`
// alone, and to test first that each word is one takes as long again.
fn natural(word: &[u8], base: u32) -> Option<u32>
    requires base { (2 ≤ base) × (base ≤ 16) }
    ensures value { result ≡ natural base 4294967295 word.now }
{
    if word.is_empty() {
        return None;
    }
    let mut number: u64 = 0;
    for &byte in word {
        let digit = char::from(byte).to_digit(base)?;
        number = number * u64::from(base) + u64::from(digit);
        if number > MOST {
            return None;
        }
    }
    Some(number as u32)
}

// Decimal digits, with a minus before a negative number.
impl Numeral for i32 {
    ghost reads = { number };

    fn read(word: &[u8]) -> Option<i32> {
        match word {
            [b'-', digits @ ..] => i32::try_from(-i64::from(natural(digits, 10)?)).ok(),
            _ => i32::try_from(natural(word, 10)?).ok(),
        }
    }
}

// The number of one hexadecimal digit or more, of so many at most.
fn hexadecimal(word: &[u8], most: usize) -> Option<u32>
    ensures value { result ≡ cond (nat_lt most (length word.now)) None (natural 16 4294967295 word.now) }
{
    if word.len() > most {
        return None;
    }
    natural(word, 16)
}

// One to four hexadecimal digits.
impl Numeral for u16 {
    ghost reads = { half };

    fn read(word: &[u8]) -> Option<u16> {
        u16::try_from(hexadecimal(word, 4)?).ok()
    }
}

// One to eight hexadecimal digits.
impl Numeral for u32 {
    ghost reads = { whole };

    fn read(word: &[u8]) -> Option<u32> {
        hexadecimal(word, 8)
    }
}

// The numerals that the words of a line write, if each writes one. That one does not is an answer, and no error that `?` gives.
pub fn numerals<T: Numeral>(heap: Global, line: &[u8]) -> Result<Option<Vec<T>>, AllocError>
    ensures made { IfOk result (λ o. option_map vec_items o ≡ every T.reads (words line.now)) }
{
    let mut found = Vec::new(heap);
    for word in Words::of(line) {
        let Some(numeral) = T::read(word) else {
            return Ok(None);
        };
        found.push(numeral)?;
    }
    Ok(Some(found))
}

// The byte of two digits.
fn pair(high: u8, low: u8) -> Option<u8>
    ensures value { result ≡ pair high low }
{
    let sixteens = char::from(high).to_digit(16)?;
    let ones = char::from(low).to_digit(16)?;
    Some((16 * sixteens + ones) as u8)
}

// The bytes that digits write in pairs, whatever spaces stand between, if none is left over.
fn pairs(heap: Global, line: &[u8]) -> Result<Option<Vec<u8>>, AllocError>
    ensures made { IfOk result (λ o. option_map vec_items o ≡ paired (filter dark line.now)) }
{
    let mut found = Vec::new(heap);
    let mut digits = line.iter().filter(|byte| **byte != SPACE);
    'pairs: while let Some(high) = digits.next() {
        let Some(low) = digits.next() else {
            return Ok(None);
        };
        let Some(byte) = pair(*high, *low) else {
            return Ok(None);
        };
        found.push(byte)?;
    }
    Ok(Some(found))
}

// The bytes that words write when they are joined.
pub fn bytes(heap: Global, line: &[u8]) -> Result<Option<Vec<u8>>, AllocError>
    ensures made { IfOk result (λ o. option_map vec_items o ≡ joined_bytes (words line.now)) }
{
    pairs(heap, line)
}
