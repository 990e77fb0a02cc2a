// The weekly calendar: a code's bits 0 to 6 are the days of the week from Monday on, and bit 7 says nothing.
ghost use Rattle.calendar.specs.Weekdays.{weekly};

use crate::{Calendar, weekday};

#[derive(Clone, Copy)]
pub struct Weekly;

impl Calendar for Weekly {
    ghost runs = { λ _. weekly };

    fn runs_on(&self, code: u8, day: u16) -> bool {
        (code >> weekday::weekday_number(day)) & 1 == 1
    }
}
