// What reading leaves in the book.
use crate::shelf::{NAMES, SMALL, after, at, fault_in};
use book::rows::{StopRow, TrainRow};
use book::state::Book;
use std::test::Fail;

#[test]
fn the_names_alone_are_an_empty_timetable(rt: HostRuntime) -> Result<(), Fail> {
    let (book, fault) = after(Book::new(), &mut [], &mut [], NAMES);
    assert_eq!(rt; fault, None);
    assert_eq!(rt; book.trains(), 0);
    Ok(())
}

#[test]
fn the_small_timetable_has_its_trains_and_stops(rt: HostRuntime) -> Result<(), Fail> {
    let mut trains = [TrainRow::BLANK; 3];
    let mut stops = [StopRow::BLANK; 7];
    let (book, fault) = after(Book::new(), &mut trains, &mut stops, SMALL);
    assert_eq!(rt; fault, None);
    assert_eq!(rt; book.trains(), 3);
    assert_eq!(rt; book.stops(), 7);
    let train = TrainRow {
        number: 12,
        code: 127,
        features: 0,
        first: 3,
        count: 2,
    };
    assert_eq!(rt; trains[1], train);
    assert_eq!(rt; stops[2], StopRow::last(3, 550));
    Ok(())
}

#[test]
fn the_greatest_values_are_read(rt: HostRuntime) -> Result<(), Fail> {
    let text =
        b"train,code,features,station,arrive,depart,fare\n65535,255,65535,1023,,00:00,65535\n65535,255,65535,0,47:59,,\n";
    let mut trains = [TrainRow::BLANK; 1];
    let mut stops = [StopRow::BLANK; 2];
    assert_eq!(rt; fault_in(&mut trains, &mut stops, text), None);
    assert_eq!(rt; trains[0].number, 65535);
    assert_eq!(rt; stops[1], StopRow::last(0, 2879));
    Ok(())
}

#[test]
fn behind_a_fault_the_finished_trains_stay_and_the_open_one_is_dropped(
    rt: HostRuntime,
) -> Result<(), Fail> {
    let text =
        b"train,code,features,station,arrive,depart,fare\n11,1,0,1,,08:00,3\n11,1,0,2,08:30,,\n12,1,0,5,,09:00,1\n12,1,0,5,09:30,,\n";
    let mut trains = [TrainRow::BLANK; 3];
    let mut stops = [StopRow::BLANK; 20];
    let (book, fault) = after(Book::new(), &mut trains, &mut stops, text);
    assert_eq!(rt; fault, Some(at(7, 5, 0, 2)));
    assert_eq!(rt; book.trains(), 1);
    assert_eq!(rt; book.stops(), 2);
    assert!(rt; book.check(&trains, &stops).is_ok());
    Ok(())
}

#[test]
fn a_text_adds_to_the_book_that_it_is_given(rt: HostRuntime) -> Result<(), Fail> {
    let more =
        b"train,code,features,station,arrive,depart,fare\n14,1,0,6,,24:30,0\n14,1,0,7,25:00,,\n";
    let mut trains = [TrainRow::BLANK; 4];
    let mut stops = [StopRow::BLANK; 9];
    let (book, fault) = after(Book::new(), &mut trains, &mut stops, SMALL);
    assert_eq!(rt; fault, None);
    let (book, fault) = after(book, &mut trains, &mut stops, more);
    assert_eq!(rt; fault, None);
    assert_eq!(rt; book.trains(), 4);
    let (book, fault) = after(book, &mut trains, &mut stops, more);
    assert_eq!(rt; fault, Some(at(3, 2, 0, 2)));
    assert_eq!(rt; book.trains(), 4);
    Ok(())
}

#[test]
fn damaged_tables_are_found_ahead_of_any_line(rt: HostRuntime) -> Result<(), Fail> {
    for text in [SMALL, b"", b"x\n"] {
        let mut trains = [TrainRow::BLANK; 3];
        let mut stops = [StopRow::BLANK; 7];
        let (book, fault) = after(Book::new(), &mut trains, &mut stops, SMALL);
        assert_eq!(rt; fault, None);
        stops[0].station = 1024;
        let (book, fault) = after(book, &mut trains, &mut stops, text);
        assert_eq!(rt; fault, Some(at(1, 0, 0, 2)));
        assert_eq!(rt; book.trains(), 3);
    }
    Ok(())
}
