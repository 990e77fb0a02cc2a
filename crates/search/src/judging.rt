// Judges a query ahead of looking for a connection.
ghost use Rattle.std.specs.Prelude.{◌≡◌, ◌≤◌};
ghost use Rattle.book.specs.Answers.{ok_unless};
ghost use Rattle.book.specs.Limits.{most_stops};
ghost use Rattle.search.specs.Refusals.{bad_query, query_refusal};

use crate::limits::{LAST_MINUTE_OF_DAY, MOST_CHANGES, records_needed};
use crate::refusal::Refusal;
use book::limits::LAST_STATION;
use book::reasons::first_of;
use connection::clock::LAST_DAY;
use connection::query::Query;

fn is_bad(query: &Query) -> bool
    ensures { result ≡ bad_query query.now }
{
    query.origin > LAST_STATION
        || query.destination > LAST_STATION
        || query.day == 0
        || query.day >= LAST_DAY
        || query.minute > LAST_MINUTE_OF_DAY
        || query.changes > MOST_CHANGES
}

// Refuses the query that cannot be put to a book with so many stops in use, or that lacks room for its rides and records.
pub fn judge(query: &Query, stops: usize, ride_room: usize, work_room: usize) -> Result<(), Refusal>
    requires few { stops ≤ most_stops }
    ensures { result ≡ ok_unless (query_refusal query.now stops ride_room work_room) }
{
    first_of(&[
        (is_bad(query), Refusal::BadQuery),
        (query.origin == query.destination, Refusal::SameStation),
        (ride_room < query.most_rides(), Refusal::ShortRides),
        (work_room < records_needed(query, stops), Refusal::ShortWork),
    ])
}
