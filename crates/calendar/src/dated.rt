// The dated calendar: rows of days on which a code runs, lent to it.
ghost use Rattle.std.specs.Prelude.{◌≡◌, true, false, MatchResult};
ghost use Rattle.calendar.specs.Rows.{covers, covered, some_backwards};

use crate::Calendar;
use crate::refusal::Refusal;

// The code runs on each day from the first to the last.
#[derive(Clone, Copy)]
pub struct DateRow {
    pub code: u8,
    pub first: u16,
    pub last: u16,
}

impl DateRow {
    // Whether the code runs on the day by this row.
    pub fn covers(&self, code: u8, day: u16) -> bool
        ensures { result ≡ covers self.now code day }
    {
        self.code == code && self.first <= day && day <= self.last
    }
}

#[derive(Clone, Copy)]
pub struct Dated<'a> {
    rows: &'a [DateRow],
}

impl<'a> Dated<'a> {
    // The calendar of these rows; refused under 24 where one's first day is after its last.
    pub fn new(rows: &'a [DateRow]) -> Result<Dated<'a>, Refusal>
        ensures { MatchResult result (λ d. (some_backwards rows.now ≡ false) × (d.rows.now ≡ rows.now)) (λ e. (some_backwards rows.now ≡ true) × (e ≡ Refusal.Backwards)) }
    {
        if rows.iter().any(|row| row.first > row.last) {
            return Err(Refusal::Backwards);
        }
        Ok(Dated { rows })
    }
}

impl<'a> Calendar for Dated<'a> {
    ghost runs = { λ t. covered t.rows.now };

    fn runs_on(&self, code: u8, day: u16) -> bool {
        self.rows.iter().any(|row| row.covers(code, day))
    }
}
