// The lines of a script, and the words of a line.
ghost use Rattle.std.specs.Prelude.{◌≡◌, ◌<◌, ◌≤◌, ℕ, Bool, [], ◌∷◌, length, IfSome, MatchOption};
ghost use Rattle.std.specs.List.{prefix_len};
ghost use Rattle.std.specs.Iterator.{YieldsFirstRef, item_count};
ghost use Rattle.scripts.specs.Words.{space, dark, in_line, first_line, later_lines, lines, words, passed_over};

pub(crate) const SPACE: u8 = b' ';

const LINE_FEED: u8 = b'\n';

// How many bytes of a text come before the first at which its front does not go on, or before its end.
fn front_len<F: Fn(u8) -> bool>(text: &[u8], goes_on: F) -> usize
    requires callable { F.IsAlwaysCallable goes_on }
    ensures value { (p : ℕ → Bool) → ((byte : ℕ) (r : Bool) → F.post goes_on byte r → r ≡ p byte) → result ≡ prefix_len p text.now }
    ensures inside { result ≤ length text.now }
{
    text.iter().take_while(|byte| goes_on(**byte)).count()
}

// The first line, and what follows its line feed.
pub fn front_line(script: &[u8]) -> (&[u8], &[u8])
    ensures line { result.0.now ≡ first_line script.now }
    ensures rest { result.1.now ≡ later_lines script.now }
    ensures shorter { 0 < length script.now → length result.1.now < length script.now }
{
    let (line, more) = script.split_at(front_len(script, |byte| byte != LINE_FEED));
    match more {
        [_, rest @ ..] => (line, rest),
        [] => (line, more),
    }
}

// The first word, and what follows it.
pub fn front_word(line: &[u8]) -> Option<(&[u8], &[u8])>
    ensures cases { MatchOption result (words line.now ≡ []) (λ p. words line.now ≡ p.0.now ∷ words p.1.now) }
    ensures shorter { IfSome result (λ p. length p.1.now < length line.now) }
{
    let (_, text) = line.split_at(front_len(line, |byte| byte == SPACE));
    let end = front_len(text, |byte| byte != SPACE);
    if end == 0 {
        return None;
    }
    Some(text.split_at(end))
}

// The lines of a script, one after the other. The library's `split` would give an empty line after the last line feed.
#[derive(Clone, Copy)]
pub struct Lines<'a> {
    script: &'a [u8],
}

impl<'a> Lines<'a> {
    pub fn of(script: &'a [u8]) -> Self
        ensures script { result.script.now ≡ script.now }
    {
        Lines { script }
    }
}

impl<'a> Iterator for Lines<'a> {
    type Item = &'a [u8];

    ghost next_gives = { YieldsFirstRef (λ s. lines s.script.now) };

    ghost remaining = { item_count (λ s. lines s.script.now) };

    fn next(&mut self) -> Option<&'a [u8]> {
        if self.script.is_empty() {
            return None;
        }
        let (line, rest) = front_line(self.script);
        self.script = rest;
        Some(line)
    }
}

// The words of a line, one after the other. The library's `split` would give an empty word between two spaces.
#[derive(Clone, Copy)]
pub(crate) struct Words<'a> {
    line: &'a [u8],
}

impl<'a> Words<'a> {
    pub(crate) fn of(line: &'a [u8]) -> Self
        ensures text { result.line.now ≡ line.now }
    {
        Words { line }
    }
}

impl<'a> Iterator for Words<'a> {
    type Item = &'a [u8];

    ghost next_gives = { YieldsFirstRef (λ s. words s.line.now) };

    ghost remaining = { item_count (λ s. words s.line.now) };

    fn next(&mut self) -> Option<&'a [u8]> {
        let (word, rest) = front_word(self.line)?;
        self.line = rest;
        Some(word)
    }
}

// Whether a line is passed over: it has no word, or is a remark.
pub fn passed_over(line: &[u8]) -> bool
    ensures value { result ≡ passed_over line.now }
{
    line.starts_with(b"#") || front_word(line).is_none()
}
