// Days, as agents write them.
ghost use Rattle.std.specs.Prelude.{◌≡◌, option_and_then};
ghost use Rattle.calendar.specs.Dates.{date_written, day_of};
ghost use Rattle.desk.specs.Days.{day};

use calendar::date::Date;
use text::numbers::number_of;

fn day_of_date(word: &[u8]) -> Option<u16>
    ensures { result ≡ option_and_then day_of (date_written word.now) }
{
    Date::written(word)?.day()
}

// The day that is written so: by its number, or by its date as 2000-01-04.
pub fn day_written(word: &[u8]) -> Option<u16>
    ensures { result ≡ day word.now }
{
    number_of(word, u16::MAX).or_else(|| day_of_date(word))
}
