// A train of two stops, entered from begin to finish: how the calls go together.
use crate::refusal::Refused;
use crate::rows::{Departure, StopRow, TrainRow};
use crate::state::Book;

// Enters train 11 from station 1 at 08:00 to station 2 at 08:30, for 300 cents. Where a call is refused, the entry is
// abandoned.
pub fn enter_one(
    book: Book,
    trains: &mut [TrainRow],
    stops: &mut [StopRow],
) -> Result<Book, Refused<Book>> {
    let leave = Some(Departure {
        minute: 480,
        fare: 300,
    });
    let entry = book.begin(trains, stops, 11, 127, 1)?;
    let entry = entry
        .stop(trains, stops, 1, None, leave)
        .map_err(Refused::abandoned)?;
    let entry = entry
        .stop(trains, stops, 2, Some(510), None)
        .map_err(Refused::abandoned)?;
    entry.finish(trains, stops).map_err(Refused::abandoned)
}
