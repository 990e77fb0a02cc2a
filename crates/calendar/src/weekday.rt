// The days of the week.
ghost use Rattle.std.specs.Prelude.{◌≡◌, Some};
ghost use Rattle.calendar.specs.Weekdays.{name_of, weekday_of, weekday_number};

use std::fmt;

#[derive(Clone, Copy, PartialEq, Eq, Debug)]
pub enum Weekday {
    Monday,
    Tuesday,
    Wednesday,
    Thursday,
    Friday,
    Saturday,
    Sunday,
}

// The week, by the numbers of its days.
const WEEK: [Weekday; 7] = [
    Weekday::Monday,
    Weekday::Tuesday,
    Weekday::Wednesday,
    Weekday::Thursday,
    Weekday::Friday,
    Weekday::Saturday,
    Weekday::Sunday,
];

// The number of the day's weekday, Monday being 0.
pub(crate) fn weekday_number(day: u16) -> u8
    ensures { result ≡ weekday_number day }
{
    ((day as u32 + 5) % 7) as u8
}

impl Weekday {
    // The weekday on which the day falls.
    pub fn of(day: u16) -> Weekday
        ensures { result ≡ weekday_of day }
    {
        WEEK[usize::from(weekday_number(day))]
    }
}

// The weekday's English name.
impl fmt::Display for Weekday {
    ghost output = { λ w. Some (name_of w) };

    fn fmt<W: fmt::Write>(&self, f: &mut fmt::Formatter<W>) -> fmt::Result {
        f.write_str(match self {
            Weekday::Monday => "Monday",
            Weekday::Tuesday => "Tuesday",
            Weekday::Wednesday => "Wednesday",
            Weekday::Thursday => "Thursday",
            Weekday::Friday => "Friday",
            Weekday::Saturday => "Saturday",
            Weekday::Sunday => "Sunday",
        })
    }
}
