// The lines of a script that are left, what those before them have made, and what is printed.
ghost use Rattle.run_calls.specs.Shrinking.{Shrinks};

use crate::made::{Made, Start};
use crate::printer::Printer;
use scripts::line::Line;
use scripts::reading::Texts;
use std::alloc::{AllocError, Global};
use std::slice;

// What a line ends the calls of a stream by: it makes another stream, closes this one, or gives its latest mark back.
#[derive(Drop)]
pub enum Exit<'a> {
    Stream(Start<'a>),
    Close,
    Release,
}

#[derive(Drop)]
pub struct Session<'a> {
    // from the next line on: what each says, and its text
    lines: slice::Iter<'a, Option<Line>>,
    texts: Texts<'a>,
    pub made: Made<'a>,
    pub printer: Printer,
}

impl<'a> Session<'a> {
    pub(crate) fn new(heap: Global, script: &'a [u8], lines: &'a [Option<Line>]) -> Self {
        Session {
            lines: lines.iter(),
            texts: Texts::of(script),
            made: Made::nothing(),
            printer: Printer::new(heap),
        }
    }

    // Takes the next line that says something, and prints its words. Those before it are answered. That lines are taken is said
    // again by each that takes them: the loop over streams ends by it.
    pub(crate) fn next(&mut self) -> Result<Option<&'a Line>, AllocError>
        ensures lines { Shrinks result self.old.lines.rest.now self.new.lines.rest.now }
    {
        'lines: while let (Some(next), Some(text)) = (self.lines.next(), self.texts.next()) {
            self.printer.echo(text)?;
            if let Some(line) = next {
                return Ok(Some(line));
            }
            self.printer.bad_line()?;
        }
        Ok(None)
    }

    // The lines up to one that makes a stream, while there is none.
    pub(crate) fn without_stream(&mut self) -> Result<Option<Start<'a>>, AllocError>
        ensures lines { Shrinks result self.old.lines.rest.now self.new.lines.rest.now }
    {
        'lines: while let Some(line) = self.next()? {
            if let Some(answer) = self.made.make(line) {
                self.printer.answer(answer)?;
                continue;
            }
            match line {
                Line::NewStream(kind) => {
                    if let Some(start) = self.made.start(*kind, &mut self.printer)? {
                        return Ok(Some(start));
                    }
                }
                _ => self.printer.bad_line()?,
            }
        }
        Ok(None)
    }
}
