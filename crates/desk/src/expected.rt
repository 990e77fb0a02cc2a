// What is expected of a line.
ghost use Rattle.std.specs.Prelude.{Some};
ghost use Rattle.desk.specs.Wanted.{wanted};

use std::error::Error;
use std::fmt;

// What was expected first in place of what stands in a line.
#[derive(Clone, Copy, PartialEq, Eq, Debug)]
pub enum Expected {
    Origin,
    Destination,
    Day,
    Time,
    Changes,
    Features,
    Tariff,
    Code,
    LastDay,
    Word,
}

// In words.
impl fmt::Display for Expected {
    ghost output = { λ expected. Some (wanted expected) };

    fn fmt<W: fmt::Write>(&self, f: &mut fmt::Formatter<W>) -> fmt::Result {
        f.write_str(match self {
            Expected::Origin => "FROM, a station's number",
            Expected::Destination => "TO, a station's number",
            Expected::Day => {
                "a day, as a number up to 65535 or a date from 2000-01-01 to 2179-06-06"
            }
            Expected::Time => "a time of day, as 07:50",
            Expected::Changes => "a change limit, a number up to 255",
            Expected::Features => "features, a number up to 65535",
            Expected::Tariff => "a tariff: minutes:PENALTY, fares or waits",
            Expected::Code => "a calendar code, a number up to 255",
            Expected::LastDay => "a last day, and nothing behind it",
            Expected::Word => "yes or no",
        })
    }
}

impl Error for Expected {}
