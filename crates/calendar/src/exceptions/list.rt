// The list of exceptions.
ghost use Rattle.std.specs.Prelude.{◌≡◌, ◌<◌, ◌≤◌, false, ◌∷◌, [], ◌++◌, Some, cond, nat_lt, slice_get};
ghost use Rattle.std.specs.Borrow.{sem};
ghost use Rattle.calendar.specs.Lending.{LendsRecord};
ghost use Rattle.calendar.specs.Limits.{most_exceptions};
ghost use Rattle.calendar.specs.Words.{entries, is_for, place, room_answer, word_of};

use crate::exceptions::{Exception, Listed, ROOM};
use crate::refusal::Refusal;

impl Exception {
    fn is_for(&self, code: u8, day: u16) -> bool
        ensures { result ≡ is_for self.now code day }
    {
        self.code == code && self.day == day
    }
}

impl Listed {
    // Where the pair is listed.
    pub(crate) fn place(&self, code: u8, day: u16) -> Option<usize>
        ensures { result ≡ place (entries self.now) code day }
    {
        self.records
            .iter()
            .take(self.count)
            .position(|listed| listed.is_for(code, day))
    }

    // The word that is listed for the pair.
    pub(crate) fn word(&self, code: u8, day: u16) -> Option<bool>
        ensures { result ≡ word_of (entries self.now) code day }
    {
        self.records
            .iter()
            .take(self.count)
            .find(|listed| listed.is_for(code, day))
            .map(|listed| listed.runs)
    }

    // Lists the exception last, where there is room.
    pub(crate) fn append(&mut self, exception: Exception) -> Result<(), Refusal>
        requires { self.old.count ≤ most_exceptions }
        ensures answer { result ≡ room_answer (nat_lt self.old.count most_exceptions) }
        ensures listed { entries self.new ≡ cond (nat_lt self.old.count most_exceptions) (entries self.old ++ (exception ∷ [])) (entries self.old) }
        ensures few { self.new.count ≤ most_exceptions }
        ensures refused { nat_lt self.old.count most_exceptions ≡ false → self.new ≡ self.old }
    {
        if self.count >= ROOM {
            return Err(Refusal::Full);
        }
        self.records[self.count] = exception;
        self.count += 1;
        Ok(())
    }

    // Lends record i out: the list ends with whatever is last left in it, and with every other record as it was.
    pub(crate) fn record(&mut self, i: usize) -> &mut Exception
        requires { i < most_exceptions }
        ensures* lent { sem 𝓛 (LendsRecord self.entry i result) }
        ensures value { slice_get self.old.records i ≡ Some result.now }
    {
        &mut self.records[i]
    }
}
