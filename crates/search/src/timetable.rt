// What a search is lent to look in.
ghost use Rattle.std.specs.Prelude.{◌≡◌};
ghost use Rattle.book.specs.Answers.{check_answer};
ghost use Rattle.search.specs.Limits.{records_needed};

use crate::limits::records_needed;
use book::refusal;
use book::rows::{StopRow, TrainRow};
use book::state::Book;
use connection::query::Query;

// A book with its two tables, and the calendar by which its trains run. Nobody can write to what it borrows, so what was
// found of the rows once holds at every search.
#[derive(Drop)]
pub struct Timetable<'a, C> {
    pub book: &'a Book,
    pub trains: &'a [TrainRow],
    pub stops: &'a [StopRow],
    pub calendar: &'a C,
    // whether the rows hold what the book says
    pub(crate) checked: Result<(), refusal::Refusal>,
    ghost found: { checked ≡ check_answer book.now trains.now stops.now },
}

impl<'a, C> Timetable<'a, C> {
    // Looks the rows over, once for all searches; whatever they hold, they are taken. A search refuses what does not hold
    // what the book says.
    pub fn new(
        book: &'a Book,
        trains: &'a [TrainRow],
        stops: &'a [StopRow],
        calendar: &'a C,
    ) -> Timetable<'a, C>
        ensures book { result.book.now ≡ book.now }
        ensures trains { result.trains.now ≡ trains.now }
        ensures stops { result.stops.now ≡ stops.now }
        ensures calendar { result.calendar.now ≡ calendar.now }
    {
        let checked = book.check(trains, stops);
        Timetable {
            book,
            trains,
            stops,
            calendar,
            checked,
        }
    }

    // How many work records a search for the query needs.
    pub fn records_needed(&self, query: &Query) -> usize
        ensures { result ≡ records_needed self.now.book.now.stops query.now }
    {
        records_needed(query, self.book.stops() as usize)
    }
}
