// The layer of exceptions over a calendar.
ghost use Rattle.std.specs.Prelude.{◌≡◌, ℕ, false, []};
ghost use Rattle.calendar.specs.Layers.{layered, noting};
ghost use Rattle.calendar.specs.Words.{entries, has_room, note_answer, noted};

use crate::Calendar;
use crate::exceptions::{Exception, Exceptions, Listed, ROOM};
use crate::refusal::Refusal;

impl<C: Calendar> Exceptions<C> {
    // The calendar below, as yet with no exception.
    pub fn new(below: C) -> Exceptions<C>
        ensures none_listed { entries result.listed ≡ [] }
        ensures below { result.below ≡ below }
        ensures pairs { (c d : ℕ) → layered C.Calendar.runs result c d ≡ C.Calendar.runs below c d }
    {
        Exceptions {
            listed: Listed {
                records: [Exception::default(); ROOM],
                count: 0,
            },
            below,
        }
    }

    // Gives the pair a word of its own, in place of the one that it may have; refused under 23, and nothing changed,
    // where the pair is new and 64 are listed.
    pub fn note(&mut self, code: u8, day: u16, word: bool) -> Result<(), Refusal>
        ensures answer { result ≡ note_answer self.old.listed code day }
        ensures pairs { (c d : ℕ) → layered C.Calendar.runs self.new c d ≡ noting (has_room self.old.listed code day) code day word (layered C.Calendar.runs self.old) c d }
        ensures listed { entries self.new.listed ≡ noted self.old.listed code day word }
        ensures below { self.new.below ≡ self.old.below }
        ensures refused { has_room self.old.listed code day ≡ false → self.new ≡ self.old }
    {
        match self.listed.place(code, day) {
            Some(i) => {
                self.listed.record(i).runs = word;
                Ok(())
            }
            None => self.listed.append(Exception {
                code,
                day,
                runs: word,
            }),
        }
    }
}

impl<C: Calendar> Calendar for Exceptions<C> {
    ghost runs = { layered C.Calendar.runs };

    fn runs_on(&self, code: u8, day: u16) -> bool {
        self.listed
            .word(code, day)
            .unwrap_or_else(|| self.below.runs_on(code, day))
    }
}
