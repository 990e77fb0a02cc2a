// Trains are withdrawn: the first, one in the middle, the last, and one of two with the same number.
use crate::rows::{after, at, enter, reason};
use book::refusal::Refused;
use book::rows::{StopRow, TrainRow};
use book::state::Book;
use std::test::Fail;

const TRAINS: usize = 4;

const STOPS: usize = 9;

// Trains 7, 8 and 9 of two, three and two stops.
fn three(
    trains: &mut [TrainRow; TRAINS],
    stops: &mut [StopRow; STOPS],
) -> Result<Book, Refused<Book>> {
    let first = [StopRow::first(1, at(0)), StopRow::last(2, 1)];
    let book = enter(Book::new(), trains, stops, 7, &first)?;
    let middle = [
        StopRow::first(3, at(0)),
        StopRow::through(4, 1, at(1)),
        StopRow::last(5, 2),
    ];
    let book = enter(book, trains, stops, 8, &middle)?;
    let last = [StopRow::first(6, at(0)), StopRow::last(7, 1)];
    enter(book, trains, stops, 9, &last)
}

// The test that asks fails where it does not hold. A line for each crate of tests, as std has no such check for helpers.
fn sure(holds: bool, what: &'static str) -> Result<(), Fail> {
    if holds { Ok(()) } else { Err(Fail::new(what)) }
}

// After a withdrawal of `number`: the numbers, first stop rows and first stations of the two trains that are left.
fn left_after(number: u16) -> Result<[(u16, u16, u16); 2], Fail> {
    let mut trains = [TrainRow::BLANK; TRAINS];
    let mut stops = [StopRow::BLANK; STOPS];
    let book = three(&mut trains, &mut stops).map_err(reason)?;
    let before = stops;
    let book = book
        .withdraw(&mut trains, &mut stops, number)
        .map_err(reason)?;
    sure(book.trains() == 2, "two trains are left")?;
    sure(book.check(&trains, &stops).is_ok(), "the tables hold")?;
    sure(stops[5] == before[5], "a freed row keeps what it held")?;
    sure(stops[6] == before[6], "a freed row keeps what it held")?;
    sure(trains[2].number == 9, "a freed row keeps what it held")?;
    let a = trains[0];
    let b = trains[1];
    let at_a = a.stops(&stops).first().copied().ok_or("no stop")?;
    let at_b = b.stops(&stops).first().copied().ok_or("no stop")?;
    Ok([
        (a.number, a.first, at_a.station),
        (b.number, b.first, at_b.station),
    ])
}

#[test]
fn later_rows_move_forward_and_their_first_rows_are_adjusted(rt: HostRuntime) -> Result<(), Fail> {
    assert!(rt; left_after(7)? == [(8, 0, 3), (9, 3, 6)]);
    assert!(rt; left_after(8)? == [(7, 0, 1), (9, 2, 6)]);
    assert!(rt; left_after(9)? == [(7, 0, 1), (8, 2, 3)]);
    Ok(())
}

#[test]
fn of_two_trains_with_one_number_the_first_goes(rt: HostRuntime) -> Result<(), Fail> {
    let mut trains = [TrainRow::BLANK; TRAINS];
    let mut stops = [StopRow::BLANK; STOPS];
    let book = three(&mut trains, &mut stops).map_err(reason)?;
    trains[2].number = 7;
    let book = book.withdraw(&mut trains, &mut stops, 7).map_err(reason)?;
    assert_eq!(rt; trains[0].number, 8);
    assert_eq!(rt; trains[1].number, 7);
    let book = book.withdraw(&mut trains, &mut stops, 7).map_err(reason)?;
    let (_, gone) = after(book.withdraw(&mut trains, &mut stops, 7));
    assert_eq!(rt; gone, Some(12));
    Ok(())
}
