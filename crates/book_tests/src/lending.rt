// Tables that are lent for many calls answer as each call by itself does.
use crate::rows::{after, at, enter};
use book::lending::LentTables;
use book::refusal::Refused;
use book::rows::{StopRow, TrainRow};
use book::state::Book;
use std::test::Fail;

// A stop by its station, arrival and departure.
type Times = (u16, Option<u16>, Option<u16>);

const SEVEN: [Times; 2] = [(1, None, Some(10)), (2, Some(11), None)];

// In a book that has train 7 and two stops, a train with this number and these stops is refused under this number.
const ATTEMPTS: [(u16, &[Times], Option<u8>); 8] = [
    (8, &[(2, None, Some(20)), (3, Some(21), None)], None),
    (0, &[(2, None, Some(20)), (3, Some(21), None)], Some(2)),
    (7, &[(2, None, Some(20)), (3, Some(21), None)], Some(3)),
    (
        8,
        &[
            (2, None, Some(20)),
            (3, Some(21), None),
            (4, Some(22), None),
        ],
        Some(5),
    ),
    (8, &[(2, None, Some(20)), (2, Some(21), None)], Some(7)),
    (8, &[(2, None, Some(20)), (3, Some(20), None)], Some(9)),
    (
        8,
        &[
            (2, None, Some(20)),
            (3, Some(21), Some(21)),
            (4, Some(22), Some(22)),
            (5, Some(23), None),
        ],
        Some(10),
    ),
    (8, &[(2, None, Some(20))], Some(11)),
];

// Enters a train by the times of its stops.
fn enter_lent(
    book: Book,
    tables: &mut LentTables,
    number: u16,
    times: &[Times],
) -> Result<Book, Refused<Book>> {
    let mut entry = tables.begin(book, number, 127, 0)?;
    for (station, arrive, depart) in times {
        entry = tables
            .stop(entry, *station, *arrive, depart.map(at))
            .map_err(Refused::abandoned)?;
    }
    tables.finish(entry).map_err(Refused::abandoned)
}

// The refusal of a train with this number and these times, and how many trains there are then.
fn attempt(number: u16, times: &[Times]) -> (Option<u8>, u16) {
    let mut trains = [TrainRow::BLANK; 3];
    let mut stops = [StopRow::BLANK; 5];
    let mut tables = LentTables::over(&mut trains, &mut stops);
    let (book, _) = after(enter_lent(Book::new(), &mut tables, 7, &SEVEN));
    let (book, refusal) = after(enter_lent(book, &mut tables, number, times));
    (refusal, book.trains())
}

#[test]
fn each_refusal_is_that_of_the_call_by_itself(rt: HostRuntime) {
    for (number, times, refusal) in ATTEMPTS.iter() {
        let left = if refusal.is_none() { 2 } else { 1 };
        assert!(rt; attempt(*number, times) == (*refusal, left));
    }
}

#[test]
fn the_rows_are_there_when_the_tables_come_back(rt: HostRuntime) -> Result<(), Fail> {
    let mut trains = [TrainRow::BLANK; 3];
    let mut stops = [StopRow::BLANK; 5];
    let mut tables = LentTables::over(&mut trains, &mut stops);
    let (book, _) = after(enter_lent(Book::new(), &mut tables, 7, &SEVEN));
    let (book, _) = after(enter_lent(book, &mut tables, 8, &SEVEN));
    assert!(rt; tables.check(&book).is_ok());
    assert!(rt; book.check(&trains, &stops).is_ok());
    assert_eq!(rt; book.stops(), 4);
    assert_eq!(rt; trains[1].number, 8);
    assert_eq!(rt; trains[1].first, 2);
    assert_eq!(rt; stops[3].station, 2);
    Ok(())
}

// The refusals of a book, and of an entry with one stop, that are of other tables.
fn refusals_of_others() -> (Option<u8>, Option<u8>) {
    let mut others = [TrainRow::BLANK; 3];
    let mut other_stops = [StopRow::BLANK; 5];
    let mut trains = [TrainRow::BLANK; 3];
    let mut stops = [StopRow::BLANK; 5];
    let mut tables = LentTables::over(&mut trains, &mut stops);
    let two = [StopRow::first(1, at(10)), StopRow::last(2, 11)];
    let (book, _) = after(enter(Book::new(), &mut others, &mut other_stops, 7, &two));
    let (_, of_book) = after(tables.begin(book, 8, 127, 0).map(|entry| entry.abandon()));
    let mut theirs = LentTables::over(&mut others, &mut other_stops);
    (of_book, refusal_of_stop(&mut theirs, &mut tables))
}

// Why the second stop of an entry is refused that has its first in the tables `theirs`.
fn refusal_of_stop(theirs: &mut LentTables, tables: &mut LentTables) -> Option<u8> {
    match theirs.begin(Book::new(), 9, 127, 0) {
        Ok(entry) => {
            let (entry, _) = after(theirs.stop(entry, 1, None, Some(at(10))));
            let (entry, refusal) = after(tables.stop(entry, 2, Some(11), None));
            entry.abandon();
            refusal
        }
        Err(Refused { back: _, refusal }) => Some(refusal.number()),
    }
}

#[test]
fn a_book_or_an_entry_of_other_tables_is_looked_over(rt: HostRuntime) {
    assert!(rt; refusals_of_others() == (Some(1), Some(1)));
}
