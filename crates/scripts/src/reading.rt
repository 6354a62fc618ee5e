// A script into its lines.
ghost use Rattle.std.specs.Prelude.{◌≡◌, map, IfOk};
ghost use Rattle.std.specs.Iterator.{YieldsFirstRef, item_count};
ghost use Rattle.scripts.specs.Sayings.{saying};
ghost use Rattle.scripts.specs.Scripts.{sayings, texts};

use crate::line::{Line, read_line};
use crate::words::{Lines, passed_over};
use std::alloc::{AllocError, Global};
use std::mem;
use tokens::token::Token;

// A token waits for the next list source, which takes all that wait.
fn with_tokens(
    heap: Global,
    line: Option<Line>,
    tokens: &mut Vec<Token>,
) -> Result<Option<Line>, AllocError>
    ensures made { IfOk result (λ o. saying o ≡ saying line) }
{
    match line {
        Some(Line::NewToken(token)) => {
            tokens.push(token)?;
            Ok(Some(Line::NewToken(token)))
        }
        Some(Line::ListSource(_)) => Ok(Some(Line::ListSource(mem::replace(
            tokens,
            Vec::new(heap),
        )))),
        line => Ok(line),
    }
}

// The texts of a script's lines, one after the other, without those that are passed over.
#[derive(Clone, Copy)]
pub struct Texts<'a> {
    lines: Lines<'a>,
}

impl<'a> Texts<'a> {
    pub fn of(script: &'a [u8]) -> Self
        ensures script { result.lines.script.now ≡ script.now }
    {
        Texts {
            lines: Lines::of(script),
        }
    }
}

impl<'a> Iterator for Texts<'a> {
    type Item = &'a [u8];

    ghost next_gives = { YieldsFirstRef (λ s. texts s.lines.script.now) };

    ghost remaining = { item_count (λ s. texts s.lines.script.now) };

    fn next(&mut self) -> Option<&'a [u8]> {
        'lines: while let Some(text) = self.lines.next() {
            if passed_over(text) {
                continue;
            }
            return Some(text);
        }
        None
    }
}

// What each of those lines says: nothing where it cannot be read. It borrows nothing of the script, and a line takes no room
// for its text, which `Texts` gives.
pub fn read_script(heap: Global, script: &[u8]) -> Result<Vec<Option<Line>>, AllocError>
    ensures made { IfOk result (λ v. map saying v.items ≡ sayings script.now) }
{
    let mut lines = Vec::new(heap);
    let mut tokens = Vec::new(heap);
    for text in Texts::of(script) {
        let line = read_line(heap, text)?;
        lines.push(with_tokens(heap, line, &mut tokens)?)?;
    }
    Ok(lines)
}
