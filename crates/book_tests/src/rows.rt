// Rows and calls that the tests share.
use book::refusal::{Refusal, Refused};
use book::rows::{Departure, StopRow, TrainRow};
use book::state::{Book, Entry};

// A departure at this minute, for 100 cents.
pub fn at(minute: u16) -> Departure {
    Departure { minute, fare: 100 }
}

// The entry with the stop; or the book that the entry had, and why not.
pub fn next(
    entry: Entry,
    trains: &[TrainRow],
    stops: &mut [StopRow],
    row: StopRow,
) -> Result<Entry, Refused<Book>> {
    entry
        .stop(trains, stops, row.station, row.arrive, row.depart)
        .map_err(Refused::abandoned)
}

// The book with a train of these stops; or as it was, and why. The tests of the search enter trains likewise; a function for
// both would be one of the book's.
pub fn enter(
    book: Book,
    trains: &mut [TrainRow],
    stops: &mut [StopRow],
    number: u16,
    rows: &[StopRow],
) -> Result<Book, Refused<Book>> {
    let mut entry = book.begin(trains, stops, number, 127, 0)?;
    for row in rows {
        entry = next(entry, trains, stops, *row)?;
    }
    entry.finish(trains, stops).map_err(Refused::abandoned)
}

// What a call gives or gives back, and the number under which it was refused, if it was.
pub fn after<S>(res: Result<S, Refused<S>>) -> (S, Option<u8>) {
    match res {
        Ok(given) => (given, None),
        Err(Refused { back, refusal }) => (back, Some(refusal.number())),
    }
}

// Why a call was refused.
pub fn reason(refused: Refused<Book>) -> Refusal {
    let Refused { back: _, refusal } = refused;
    refusal
}
