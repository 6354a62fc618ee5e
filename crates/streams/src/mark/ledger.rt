// The marks of one stream: made, and taken back the latest first.
ghost use Rattle.std.specs.Prelude.{◌≡◌, ◌==◌, false, IfOk, IfErr};
ghost use Rattle.streams.specs.Marks.{numbered, top, numbers_out, next_number, marking, after_marking, releasing, after_releasing, made, released, HandedBack};

use crate::mark::{Kept, Mark, Marks, Numbering};
use refusals::Refusal;

impl Mark {
    pub fn number(&self) -> i32
        ensures value { result ≡ self.now.number }
    {
        self.number
    }

    // A mark that is out.
    pub(crate) fn new(number: i32) -> Self
        ensures value { result ≡ record { number = number; spent = false } }
    {
        Mark {
            number,
            spent: false,
        }
    }

    // A mark that came back is spent, and is let go.
    pub(crate) fn spend(self) {
        let mut mark = self;
        mark.spent = true;
    }

    // A mark that is not taken is handed back.
    pub(crate) fn refused(self, refusal: Refusal) -> Kept
        ensures value { result ≡ record { mark = self; refusal = refusal } }
    {
        Kept {
            mark: self,
            refusal,
        }
    }
}

impl Numbering {
    // The number of a mark that is made while so many are out.
    pub(crate) fn next(self, out: u8) -> i32
        ensures value { result ≡ numbered self out }
    {
        match self {
            Numbering::Fixed(number) => number,
            Numbering::Falling => -1 - i32::from(out),
        }
    }

    // The number of the latest of so many marks.
    pub(crate) fn latest(self, out: u8) -> Option<i32>
        ensures value { result ≡ top self out }
    {
        out.checked_sub(1).map(|earlier| self.next(earlier))
    }
}

// What stays, and what comes back, each call says for itself: it is about two values, so that no type holds it.
impl Marks {
    // No mark is out.
    pub fn new(numbering: Numbering) -> Self
        ensures numbering { result.numbering ≡ numbering }
        ensures none { result.out ≡ 0 }
    {
        Marks { numbering, out: 0 }
    }

    // One mark more.
    #[tactic(auto, using(crate::proofs::Numbers::mark_given, crate::proofs::Numbers::numbers_more))]
    pub fn mark(&mut self) -> Result<Mark, Refusal>
        ensures value { made result ≡ marking (numbers_out self.old) (next_number self.old) }
        ensures after { numbers_out self.new ≡ after_marking (numbers_out self.old) (next_number self.old) }
        ensures numbering { self.new.numbering ≡ self.old.numbering }
        ensures unspent { IfOk result (λ m. m.spent ≡ false) }
    {
        let more = self.out.checked_add(1).ok_or(Refusal::MarksUsedUp)?;
        let number = self.numbering.next(self.out);
        self.out = more;
        Ok(Mark::new(number))
    }

    // The latest mark comes back; any other is handed back.
    pub fn release(&mut self, mark: Mark) -> Result<(), Kept>
        ensures value { released result ≡ releasing (numbers_out self.old) mark.number }
        ensures back { HandedBack mark.number result }
        ensures after { numbers_out self.new ≡ after_releasing (numbers_out self.old) mark.number }
        ensures numbering { self.new.numbering ≡ self.old.numbering }
        ensures unspent { IfErr result (λ k. k.mark.spent ≡ mark.spent) }
    {
        if self.numbering.latest(self.out) != Some(mark.number) {
            return Err(mark.refused(Refusal::WrongMark));
        }
        self.out -= 1;
        mark.spend();
        Ok(())
    }

    // Whether none is out.
    pub fn is_empty(&self) -> bool
        ensures value { result ≡ (self.now.out == 0) }
    {
        self.out == 0
    }
}
