// Days as dates of the Gregorian calendar.
ghost use Rattle.std.specs.Prelude.{◌≡◌, ◌<◌, ℕ, Some, IfSome, true};
ghost use Rattle.calendar.specs.Dates.{is_leap, month_length, year_length, date_of, new_year, after, date_text, in_calendar, day_of, two, are_digits, date_written};

use std::fmt;

// Months and days of the month count from 1.
#[derive(Clone, Copy, PartialEq, Eq, Debug)]
pub struct Date {
    pub year: u16,
    pub month: u8,
    pub day: u8,
}

// A day by its year and how many days of the year are over.
#[derive(Clone, Copy)]
struct YearDay {
    year: u16,
    over: u16,
}

// The year that has day 65,535.
const LAST_YEAR: u16 = 2179;

fn is_leap(year: u16) -> bool
    ensures { result ≡ is_leap year }
{
    year % 4 == 0 && (year % 100 != 0 || year % 400 == 0)
}

fn year_length(year: u16) -> u16
    ensures { result ≡ year_length year }
{
    if is_leap(year) { 366 } else { 365 }
}

fn month_length(year: u16, month: u8) -> u16
    ensures { result ≡ month_length year month }
{
    match month {
        2 => if is_leap(year) { 29 } else { 28 },
        4 | 6 | 9 | 11 => 30,
        _ => 31,
    }
}

fn are_digits(tens: u8, ones: u8) -> bool
    ensures { result ≡ are_digits tens ones }
{
    tens.is_ascii_digit() && ones.is_ascii_digit()
}

fn two_digits(tens: u8, ones: u8) -> u8
    requires { are_digits tens ones ≡ true }
    ensures { result ≡ two tens ones }
{
    10 * (tens - b'0') + (ones - b'0')
}

fn year_day_of(day: u16) -> YearDay
    ensures same { after result.over (new_year result.year) ≡ date_of day }
    ensures within { result.over < year_length result.year }
{
    let mut year = 2000;
    let mut over = day;
    // Years differ in length, so they are taken off one at a time.
    while over >= year_length(year) {
        over -= year_length(year);
        year += 1;
    }
    YearDay { year, over }
}

impl Date {
    // The date of the day.
    pub fn of(day: u16) -> Date
        ensures { result ≡ date_of day }
    {
        let YearDay { year, mut over } = year_day_of(day);
        let mut month = 1;
        // So are months. One function for both loops would take the length as a closure, and hide what it counts.
        while over >= month_length(year, month) {
            over -= month_length(year, month);
            month += 1;
        }
        Date {
            year,
            month,
            day: over as u8 + 1,
        }
    }

    // The date that is written so, as 2000-01-04, if it is one of the Gregorian calendar.
    #[tactic(auto, unfolding(crate::specs::Dates::date_written))]
    pub fn written(text: &[u8]) -> Option<Date>
        ensures date { result ≡ date_written text.now }
        ensures text { IfSome result (λ t. date_text t ≡ text.now) }
    {
        match text {
            [a, b, c, d, b'-', e, f, b'-', g, h]
                if are_digits(*a, *b)
                    && are_digits(*c, *d)
                    && are_digits(*e, *f)
                    && are_digits(*g, *h) => {
                let date = Date {
                    year: 100 * two_digits(*a, *b) as u16 + two_digits(*c, *d) as u16,
                    month: two_digits(*e, *f),
                    day: two_digits(*g, *h),
                };
                date.is_in_calendar().then_some(date)
            }
            _ => None,
        }
    }

    // The day that has this date, if there is one: the first is 1 January 2000, and the last has number 65,535.
    pub fn day(&self) -> Option<u16>
        ensures day { result ≡ day_of self.now }
        ensures date { IfSome result (λ d. date_of d ≡ self.now) }
        ensures every { (d : ℕ) → d < 65536 → date_of d ≡ self.now → result ≡ Some d }
    {
        if !self.is_in_calendar() || self.year < 2000 || self.year > LAST_YEAR {
            return None;
        }
        let mut days = self.day as u32 - 1;
        for year in 2000..self.year {
            days += year_length(year) as u32;
        }
        for month in 1..self.month {
            days += month_length(self.year, month) as u32;
        }
        u16::try_from(days).ok()
    }

    fn is_in_calendar(&self) -> bool
        ensures { result ≡ in_calendar self.now }
    {
        matches!(self.month, 1..=12)
            && self.day >= 1
            && self.day as u16 <= month_length(self.year, self.month)
    }
}

// Year, month and day, as 2000-01-04.
impl fmt::Display for Date {
    ghost output = { λ t. Some (date_text t) };

    fn fmt<W: fmt::Write>(&self, f: &mut fmt::Formatter<W>) -> fmt::Result {
        write!(f, "{:04}-{:02}-{:02}", self.year, self.month, self.day)
    }
}
