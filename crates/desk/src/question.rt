// What a line of a query asks.
ghost use Rattle.std.specs.Prelude.{◌≡◌};
ghost use Rattle.desk.specs.Questions.{asks};

use crate::asked::{Asked, tariff_named};
use crate::days::day_written;
use crate::expected::Expected;
use connection::query::Query;
use text::cut::cut_at;
use text::numbers::{number_of, small_number_of};
use text::times::time_of;

// For the cheapest connection of a query, under a tariff.
#[derive(Clone, Copy, PartialEq, Eq, Debug)]
pub struct Question {
    pub query: Query,
    pub tariff: Asked,
}

// What the line asks: FROM TO DAY TIME CHANGES FEATURES TARIFF.
pub fn asked_by(line: &[u8]) -> Result<Question, Expected>
    ensures { result ≡ asks line.now }
{
    // each word is cut off what the word ahead of it left
    let next = cut_at(line, b' ');
    let origin = number_of(next.front, u16::MAX).ok_or(Expected::Origin)?;
    let next = cut_at(next.behind, b' ');
    let destination = number_of(next.front, u16::MAX).ok_or(Expected::Destination)?;
    let next = cut_at(next.behind, b' ');
    let day = day_written(next.front).ok_or(Expected::Day)?;
    let next = cut_at(next.behind, b' ');
    let minute = time_of(next.front).ok_or(Expected::Time)?;
    let next = cut_at(next.behind, b' ');
    let changes = small_number_of(next.front).ok_or(Expected::Changes)?;
    let next = cut_at(next.behind, b' ');
    let features = number_of(next.front, u16::MAX).ok_or(Expected::Features)?;
    let tariff = tariff_named(next.behind).ok_or(Expected::Tariff)?;
    let query = Query {
        origin,
        destination,
        day,
        minute,
        changes,
        features,
    };
    Ok(Question { query, tariff })
}
