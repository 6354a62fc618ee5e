// What the lines of a script have made: an input, and a source.
use crate::printer::Printer;
use crate::source::AnySource;
use crate::text::{AnyText, Input, check_units};
use lexer::sheet_lexer::SheetLexer;
use scripts::answers::{Answer, Value};
use scripts::line::{Kind, Line};
use std::alloc::AllocError;
use tokens::list_source::ListSource;

// What a stream is made over.
#[derive(Drop)]
pub enum Start<'a> {
    Chars(AnyText<'a>),
    Unbuffered(AnySource<'a>),
}

#[derive(Drop)]
pub struct Made<'a> {
    input: Input<'a>,
    // the source that waits for a stream; one that comes back from its stream takes the place
    pub source: Option<AnySource<'a>>,
}

impl<'a> Made<'a> {
    pub(crate) fn nothing() -> Self {
        Made {
            input: Input::empty(),
            source: None,
        }
    }

    // Makes an input or a source, and answers how that went. Other lines make none.
    pub(crate) fn make(&mut self, line: &'a Line) -> Option<Answer> {
        match line {
            Line::Input(units) => {
                self.input = Input::new(units);
                Some(check_units(units).map(|()| Value::Done))
            }
            Line::NewToken(_) => Some(Ok(Value::Done)),
            Line::ListSource(tokens) => {
                self.source = Some(AnySource::List(ListSource::new(
                    tokens.as_slice(),
                    self.input.bytes,
                )));
                Some(ListSource::check(tokens.as_slice()).map(|()| Value::Done))
            }
            Line::SheetSource => {
                self.source = Some(AnySource::Sheet(SheetLexer::new(self.input.text)));
                Some(Ok(Value::Done))
            }
            _ => None,
        }
    }

    // What a stream of a kind is made over, and answers whether it is there. A source that waits is then spent.
    pub(crate) fn start(
        &mut self,
        kind: Kind,
        printer: &mut Printer,
    ) -> Result<Option<Start<'a>>, AllocError> {
        let start = match kind {
            Kind::Common(_) => None,
            Kind::Unbuffered => self.source.take().map(Start::Unbuffered),
            Kind::Chars => Some(Start::Chars(self.input.text)),
        };
        if start.is_some() {
            printer.answer(Ok(Value::Done))?;
        } else {
            printer.bad_line()?;
        }
        Ok(start)
    }
}
