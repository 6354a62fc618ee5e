// A pile of marks.
ghost use Rattle.std.specs.Prelude.{◌≡◌, suc, ◌-◌, false, IfSome, IfErr};
ghost use Rattle.std.specs.Option.{option_map};
ghost use Rattle.refusals.specs.Answers.{if_given};
ghost use Rattle.streams.specs.Marks.{top, piling, released, HandedBack};

use crate::mark::{Kept, Mark, Numbering, Pile};
use refusals::Refusal;

// What stays, and what comes back, each call says for itself: it is about two values, so that no type holds it.
impl Pile {
    // No mark, of a stream that numbers its marks so.
    pub fn new(numbering: Numbering) -> Self
        ensures numbering { result.numbering ≡ numbering }
        ensures none { result.len ≡ 0 }
    {
        Pile { numbering, len: 0 }
    }

    // The number of the latest mark.
    pub fn latest(&self) -> Option<i32>
        ensures value { result ≡ top self.now.numbering self.now.len }
    {
        self.numbering.latest(self.len)
    }

    // Lays a mark on the pile, which must have the next number; else it is handed back.
    pub fn push(&mut self, mark: Mark) -> Result<(), Kept>
        ensures value { released result ≡ piling self.old.numbering self.old.len mark.number }
        ensures back { HandedBack mark.number result }
        ensures after { self.new.len ≡ if_given (piling self.old.numbering self.old.len mark.number) (suc self.old.len) self.old.len }
        ensures numbering { self.new.numbering ≡ self.old.numbering }
        ensures unspent { IfErr result (λ k. k.mark.spent ≡ mark.spent) }
    {
        let Some(more) = self.len.checked_add(1) else {
            return Err(mark.refused(Refusal::MarksUsedUp));
        };
        if self.numbering.next(self.len) != mark.number {
            return Err(mark.refused(Refusal::WrongMark));
        }
        self.len = more;
        mark.spend();
        Ok(())
    }

    // Takes the latest mark off.
    pub fn pop(&mut self) -> Option<Mark>
        ensures value { option_map (λ m. m.number) result ≡ top self.old.numbering self.old.len }
        ensures after { self.new.len ≡ self.old.len - 1 }
        ensures numbering { self.new.numbering ≡ self.old.numbering }
        ensures unspent { IfSome result (λ m. m.spent ≡ false) }
    {
        let number = self.latest()?;
        self.len -= 1;
        Some(Mark::new(number))
    }
}
