// The bytes that are printed, line by line.
use scripts::answers::{Answer, push_answer, push_bad_line, push_echo};
use std::alloc::{AllocError, Global};

#[derive(Drop)]
pub struct Printer {
    pub out: Vec<u8>,
}

impl Printer {
    pub(crate) fn new(heap: Global) -> Self {
        Printer {
            out: Vec::new(heap),
        }
    }

    // Prints the words of a line, before its answer.
    pub(crate) fn echo(&mut self, text: &[u8]) -> Result<(), AllocError> {
        push_echo(&mut self.out, text)?;
        self.out.extend_from_slice(b" = ")
    }

    // Prints the answer of a line.
    pub(crate) fn answer(&mut self, answer: Answer) -> Result<(), AllocError> {
        push_answer(&mut self.out, answer)?;
        self.end_line()
    }

    // Says that a line is none.
    pub(crate) fn bad_line(&mut self) -> Result<(), AllocError> {
        push_bad_line(&mut self.out)?;
        self.end_line()
    }

    pub(crate) fn end_line(&mut self) -> Result<(), AllocError> {
        self.out.extend_from_slice(b"\n")
    }
}
