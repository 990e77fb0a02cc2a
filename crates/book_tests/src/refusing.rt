// Each refusal, and which of several comes first.
use crate::rows::{after, at, enter, next, reason};
use book::refusal::{Refusal, Refused};
use book::rows::{StopRow, TrainRow};
use book::state::Book;
use std::test::Fail;

// A stop by its station, arrival and departure.
type Times = (u16, Option<u16>, Option<u16>);

// In a book that has train 7, a train with this number and these stops is refused under this number.
const ATTEMPTS: [(u16, &[Times], Option<u8>); 24] = [
    (8, &[(1, None, Some(10)), (2, Some(11), None)], None),
    (0, &[(1, None, Some(10)), (2, Some(11), None)], Some(2)),
    (7, &[(1, None, Some(10)), (2, Some(11), None)], Some(3)),
    (
        8,
        &[
            (1, None, Some(10)),
            (2, Some(11), None),
            (3, Some(12), None),
        ],
        Some(5),
    ),
    // past the last stop, and no station
    (
        8,
        &[
            (1, None, Some(10)),
            (2, Some(11), None),
            (1024, Some(12), None),
        ],
        Some(5),
    ),
    (8, &[(1024, None, Some(10)), (2, Some(11), None)], Some(6)),
    (8, &[(1023, None, Some(10)), (2, Some(11), None)], None),
    // no station, and not timed
    (8, &[(1, None, Some(10)), (1024, None, None)], Some(6)),
    (8, &[(1, None, Some(10)), (1, Some(11), None)], Some(7)),
    // the same station, and no arrival
    (8, &[(1, None, Some(10)), (1, None, Some(11))], Some(7)),
    (8, &[(1, Some(9), Some(10))], Some(8)),
    (8, &[(1, None, None)], Some(8)),
    (8, &[(1, None, Some(10)), (2, None, Some(11))], Some(8)),
    // no arrival, and a late departure
    (8, &[(1, None, Some(10)), (2, None, Some(2880))], Some(8)),
    (8, &[(1, None, Some(2880))], Some(9)),
    (8, &[(1, None, Some(2878)), (2, Some(2879), None)], None),
    (8, &[(1, None, Some(2879)), (2, Some(2880), None)], Some(9)),
    (8, &[(1, None, Some(10)), (2, Some(12), Some(11))], Some(9)),
    (8, &[(1, None, Some(10)), (2, Some(10), None)], Some(9)),
    (
        8,
        &[
            (1, None, Some(10)),
            (2, Some(11), Some(11)),
            (1, Some(12), None),
        ],
        None,
    ),
    (
        8,
        &[
            (1, None, Some(10)),
            (2, Some(11), Some(11)),
            (1, Some(11), None),
        ],
        Some(9),
    ),
    (8, &[(1, None, Some(10)), (2, Some(11), Some(11))], Some(11)),
    (8, &[(1, None, Some(10))], Some(11)),
    (8, &[], Some(11)),
];

// Enters a train by the times of its stops.
fn enter_timed(
    book: Book,
    trains: &mut [TrainRow],
    stops: &mut [StopRow],
    number: u16,
    times: &[Times],
) -> Result<Book, Refused<Book>> {
    let mut entry = book.begin(trains, stops, number, 127, 0)?;
    for (station, arrive, depart) in times {
        let row = StopRow {
            station: *station,
            arrive: *arrive,
            depart: depart.map(at),
        };
        entry = next(entry, trains, stops, row)?;
    }
    entry.finish(trains, stops).map_err(Refused::abandoned)
}

// Stops of a ride from one station to another.
fn two(from: u16, to: u16) -> [StopRow; 2] {
    [StopRow::first(from, at(0)), StopRow::last(to, 1)]
}

// The refusal of a train with this number and these times, and how many trains there are then.
fn attempt(number: u16, times: &[Times]) -> (Option<u8>, u16) {
    let mut trains = [TrainRow::BLANK; 3];
    let mut stops = [StopRow::BLANK; 5];
    let (book, _) = after(enter(Book::new(), &mut trains, &mut stops, 7, &two(1, 2)));
    let (book, refusal) = after(enter_timed(book, &mut trains, &mut stops, number, times));
    (refusal, book.trains())
}

#[test]
fn each_refusal_is_given_on_its_condition_the_earliest_first(rt: HostRuntime) {
    for (number, times, refusal) in ATTEMPTS.iter() {
        let left = if refusal.is_none() { 2 } else { 1 };
        assert!(rt; attempt(*number, times) == (*refusal, left));
    }
}

#[test]
fn a_full_table_is_refused_under_4_and_10(rt: HostRuntime) {
    let mut trains = [TrainRow::BLANK; 1];
    let mut stops = [StopRow::BLANK; 3];
    let (book, first) = after(enter(Book::new(), &mut trains, &mut stops, 7, &two(1, 2)));
    assert_eq!(rt; first, None);
    // a known number comes before a full table
    let (book, known) = after(enter(book, &mut trains, &mut stops, 7, &two(1, 2)));
    assert_eq!(rt; known, Some(3));
    let (book, no_row) = after(enter(book, &mut trains, &mut stops, 8, &two(1, 2)));
    assert_eq!(rt; no_row, Some(4));
    let mut more = [trains[0], TrainRow::BLANK];
    // a time out of order comes before a full table
    let late = [StopRow::first(1, at(0)), StopRow::last(2, 0)];
    let (book, early) = after(enter(book, &mut more, &mut stops, 8, &late));
    assert_eq!(rt; early, Some(9));
    let (_, no_stop) = after(enter(book, &mut more, &mut stops, 8, &two(1, 2)));
    assert_eq!(rt; no_stop, Some(10));
}

#[test]
fn tables_of_no_rows_take_no_train(rt: HostRuntime) {
    let (book, no_row) = after(enter(Book::new(), &mut [], &mut [], 1, &[]));
    assert_eq!(rt; no_row, Some(4));
    let mut one = [TrainRow::BLANK; 1];
    let (book, no_stop) = after(enter(book, &mut one, &mut [], 1, &[StopRow::first(1, at(0))]));
    assert_eq!(rt; no_stop, Some(10));
    let (book, unknown) = after(book.withdraw(&mut [], &mut [], 1));
    assert_eq!(rt; unknown, Some(12));
    assert_eq!(rt; checked(&book, &[], &[]), None);
}

// The number under which looking the tables over is refused.
fn checked(book: &Book, trains: &[TrainRow], stops: &[StopRow]) -> Option<u8> {
    let refusal = book.check(trains, stops).err()?;
    Some(refusal.number())
}

// Trains 7 and 8 of two stops each.
fn two_trains(trains: &mut [TrainRow], stops: &mut [StopRow]) -> Result<Book, Refused<Book>> {
    let book = enter(Book::new(), trains, stops, 7, &two(1, 2))?;
    enter(book, trains, stops, 8, &two(3, 4))
}

#[test]
fn altered_train_rows_are_refused_under_1(rt: HostRuntime) -> Result<(), Fail> {
    let mut trains = [TrainRow::BLANK; 3];
    let mut stops = [StopRow::BLANK; 8];
    let book = two_trains(&mut trains, &mut stops).map_err(reason)?;
    assert_eq!(rt; checked(&book, &trains, &stops), None);
    let mut gap = trains;
    gap[1].first = 3;
    assert_eq!(rt; checked(&book, &gap, &stops), Some(1));
    let swapped = [trains[1], trains[0]];
    assert_eq!(rt; checked(&book, &swapped, &stops), Some(1));
    let mut count = trains;
    count[0].count = 3;
    assert_eq!(rt; checked(&book, &count, &stops), Some(1));
    let mut unnumbered = trains;
    unnumbered[0].number = 0;
    assert_eq!(rt; checked(&book, &unnumbered, &stops), Some(1));
    let mut same_number = trains;
    same_number[1].number = 7;
    assert_eq!(rt; checked(&book, &same_number, &stops), None);
    assert_eq!(rt; checked(&book, &trains[0..1], &stops), Some(1));
    Ok(())
}

#[test]
fn altered_stop_rows_are_refused_under_1_before_any_other_number(
    rt: HostRuntime,
) -> Result<(), Fail> {
    let mut trains = [TrainRow::BLANK; 3];
    let mut stops = [StopRow::BLANK; 8];
    let book = two_trains(&mut trains, &mut stops).map_err(reason)?;
    assert_eq!(rt; checked(&book, &trains, &stops[0..4]), None);
    assert_eq!(rt; checked(&book, &trains, &stops[0..3]), Some(1));
    stops[1].arrive = None;
    let (book, zero) = after(enter(book, &mut trains, &mut stops, 0, &[]));
    assert_eq!(rt; zero, Some(1));
    let (_, unknown) = after(book.withdraw(&mut trains, &mut stops, 9));
    assert_eq!(rt; unknown, Some(1));
    Ok(())
}

// The numbers under which another stop and the finish are refused.
type StopAndFinish = (Option<u8>, Option<u8>);

// An entry with two stops, over tables that are then cut to these lengths.
fn cut_short(
    second: StopRow,
    train_rows: usize,
    stop_rows: usize,
) -> Result<StopAndFinish, Refused<Book>> {
    let mut trains = [TrainRow::BLANK; 2];
    let mut stops = [StopRow::BLANK; 4];
    let entry = Book::new().begin(&trains, &stops, 7, 127, 0)?;
    let entry = next(entry, &trains, &mut stops, StopRow::first(1, at(0)))?;
    let entry = next(entry, &trains, &mut stops, second)?;
    let trains = &mut trains[0..train_rows.min(2)];
    let stops = &mut stops[0..stop_rows.min(4)];
    let (entry, stop) = after(entry.stop(trains, stops, 3, Some(2), None));
    let (_, finish) = after(entry.finish(trains, stops).map_err(Refused::abandoned));
    Ok((stop, finish))
}

// The same, or why the entry itself was refused.
fn refusals_when_cut(
    second: StopRow,
    train_rows: usize,
    stop_rows: usize,
) -> Result<StopAndFinish, Refusal> {
    cut_short(second, train_rows, stop_rows).map_err(reason)
}

// A stop past the last is refused under 5, one out of order under 9, and a finish without a last stop under 11; but
// under 1 where the rows of the entry do not fit.
#[test]
fn an_entry_whose_rows_do_not_fit_is_refused_under_1_first(rt: HostRuntime) -> Result<(), Fail> {
    let last = StopRow::last(2, 1);
    assert!(rt; refusals_when_cut(last, 2, 4)? == (Some(5), None));
    assert!(rt; refusals_when_cut(last, 1, 2)? == (Some(5), None));
    assert!(rt; refusals_when_cut(last, 0, 4)? == (Some(1), Some(1)));
    let through = StopRow::through(2, 1, at(2));
    assert!(rt; refusals_when_cut(through, 2, 4)? == (Some(9), Some(11)));
    assert!(rt; refusals_when_cut(through, 2, 1)? == (Some(1), Some(1)));
    Ok(())
}
