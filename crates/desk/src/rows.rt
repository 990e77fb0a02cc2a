// What a line of a calendar's file says.
ghost use Rattle.std.specs.Prelude.{◌≡◌};
ghost use Rattle.desk.specs.Rows.{date_row, yes_or_no, exception_row};

use crate::days::day_written;
use crate::expected::Expected;
use calendar::dated::DateRow;
use text::cut::cut_at;
use text::numbers::small_number_of;

// Whether a code runs on a day, whatever the calendar below says.
#[derive(Clone, Copy, PartialEq, Eq, Debug)]
pub struct ExceptionRow {
    pub code: u8,
    pub day: u16,
    pub runs: bool,
}

// A code and the days on which it runs: `code,first,last`.
pub fn date_row(line: &[u8]) -> Result<DateRow, Expected>
    ensures { result ≡ date_row line.now }
{
    let next = cut_at(line, b',');
    let code = small_number_of(next.front).ok_or(Expected::Code)?;
    let next = cut_at(next.behind, b',');
    let first = day_written(next.front).ok_or(Expected::Day)?;
    let last = day_written(next.behind).ok_or(Expected::LastDay)?;
    Ok(DateRow { code, first, last })
}

fn yes_or_no(word: &[u8]) -> Option<bool>
    ensures { result ≡ yes_or_no word.now }
{
    match word {
        b"yes" => Some(true),
        b"no" => Some(false),
        _ => None,
    }
}

// An exception: `code,day,yes` or `code,day,no`.
pub fn exception_row(line: &[u8]) -> Result<ExceptionRow, Expected>
    ensures { result ≡ exception_row line.now }
{
    let next = cut_at(line, b',');
    let code = small_number_of(next.front).ok_or(Expected::Code)?;
    let next = cut_at(next.behind, b',');
    let day = day_written(next.front).ok_or(Expected::Day)?;
    let runs = yes_or_no(next.behind).ok_or(Expected::Word)?;
    Ok(ExceptionRow { code, day, runs })
}
