// A book is filled to the last row.
use crate::rows::{after, at, enter, next, reason};
use book::refusal::Refused;
use book::rows::{StopRow, TrainRow};
use book::state::{Book, Entry};
use std::test::Fail;

// Eight stops, a minute from each to the next.
fn eight() -> [StopRow; 8] {
    [
        StopRow::first(1, at(0)),
        StopRow::through(2, 1, at(1)),
        StopRow::through(3, 2, at(2)),
        StopRow::through(4, 3, at(3)),
        StopRow::through(5, 4, at(4)),
        StopRow::through(6, 5, at(5)),
        StopRow::through(7, 6, at(6)),
        StopRow::last(8, 7),
    ]
}

// Enters trains 1 to 512, of eight stops each.
fn fill(trains: &mut [TrainRow], stops: &mut [StopRow]) -> Result<Book, Refused<Book>> {
    let mut book = Book::new();
    for number in 1..=512u16 {
        book = enter(book, trains, stops, number, &eight())?;
    }
    Ok(book)
}

#[test]
fn all_512_trains_and_4096_stops_fit_and_no_train_more(rt: HostRuntime) -> Result<(), Fail> {
    let mut trains = [TrainRow::BLANK; 520];
    let mut stops = [StopRow::BLANK; 4100];
    let book = fill(&mut trains, &mut stops).map_err(reason)?;
    assert_eq!(rt; book.trains(), 512);
    assert_eq!(rt; book.stops(), 4096);
    assert!(rt; book.check(&trains, &stops).is_ok());
    let (_, refusal) = after(enter(book, &mut trains, &mut stops, 513, &eight()));
    assert_eq!(rt; refusal, Some(4));
    Ok(())
}

// A train's first 63 stops, a minute from each to the next.
fn first_63(
    book: Book,
    trains: &[TrainRow],
    stops: &mut [StopRow],
    number: u16,
) -> Result<Entry, Refused<Book>> {
    let entry = book.begin(trains, stops, number, 127, 0)?;
    let mut entry = next(entry, trains, stops, StopRow::first(0, at(0)))?;
    for minute in 1..63u16 {
        entry = next(
            entry,
            trains,
            stops,
            StopRow::through(minute, minute, at(minute)),
        )?;
    }
    Ok(entry)
}

// The book with a train of 64 stops.
fn enter_64(
    book: Book,
    trains: &mut [TrainRow],
    stops: &mut [StopRow],
    number: u16,
) -> Result<Book, Refused<Book>> {
    let entry = first_63(book, trains, stops, number)?;
    let entry = next(entry, trains, stops, StopRow::last(63, 63))?;
    entry.finish(trains, stops).map_err(Refused::abandoned)
}

// Enters trains 1 to 64, of 64 stops each.
fn fill_stops(trains: &mut [TrainRow], stops: &mut [StopRow]) -> Result<Book, Refused<Book>> {
    let mut book = Book::new();
    for number in 1..=64u16 {
        book = enter_64(book, trains, stops, number)?;
    }
    Ok(book)
}

#[test]
fn the_4096th_stop_of_a_book_fits_and_no_stop_more(rt: HostRuntime) -> Result<(), Fail> {
    let mut trains = [TrainRow::BLANK; 65];
    let mut stops = [StopRow::BLANK; 4100];
    let book = fill_stops(&mut trains, &mut stops).map_err(reason)?;
    assert_eq!(rt; book.stops(), 4096);
    let one = [StopRow::first(1, at(0))];
    let (_, refusal) = after(enter(book, &mut trains, &mut stops, 65, &one));
    assert_eq!(rt; refusal, Some(10));
    Ok(())
}

// The number under which a 65th stop is refused.
fn refusal_of_65th(
    trains: &[TrainRow],
    stops: &mut [StopRow],
) -> Result<Option<u8>, Refused<Book>> {
    let entry = first_63(Book::new(), trains, stops, 1)?;
    let entry = next(entry, trains, stops, StopRow::through(63, 63, at(63)))?;
    let last = next(entry, trains, stops, StopRow::last(64, 64));
    let (_, refusal) = after(last.map(Entry::abandon));
    Ok(refusal)
}

#[test]
fn the_64th_stop_of_a_train_fits_and_the_65th_does_not(rt: HostRuntime) -> Result<(), Fail> {
    let trains = [TrainRow::BLANK; 1];
    let mut stops = [StopRow::BLANK; 70];
    let refusal = refusal_of_65th(&trains, &mut stops).map_err(reason)?;
    assert_eq!(rt; refusal, Some(10));
    Ok(())
}
