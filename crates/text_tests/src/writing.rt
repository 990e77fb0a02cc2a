// What writing leaves in the buffer.
use crate::shelf::{NAMES, SMALL, after};
use book::rows::{StopRow, TrainRow};
use book::state::Book;
use std::test::Fail;
use text::refusal::Refusal;
use text::writing::write;

const SMALL_LENGTH: usize = SMALL.len();

#[test]
fn a_text_comes_back_byte_for_byte_and_what_stands_behind_it_stays(
    rt: HostRuntime,
) -> Result<(), Fail> {
    let mut trains = [TrainRow::BLANK; 5];
    let mut stops = [StopRow::BLANK; 10];
    let (book, fault) = after(Book::new(), &mut trains, &mut stops, SMALL);
    assert_eq!(rt; fault, None);
    let mut buffer = [b'#'; SMALL_LENGTH + 3];
    assert_eq!(rt;
        write(&book, &trains, &stops, &mut buffer),
        Ok(SMALL_LENGTH)
    );
    assert!(rt; buffer.starts_with(SMALL));
    assert!(rt; buffer.ends_with(b"###"));
    Ok(())
}

#[test]
fn a_buffer_that_is_a_byte_too_short_is_left_alone(rt: HostRuntime) -> Result<(), Fail> {
    let mut trains = [TrainRow::BLANK; 3];
    let mut stops = [StopRow::BLANK; 7];
    let (book, _) = after(Book::new(), &mut trains, &mut stops, SMALL);
    let mut exact = [b'#'; SMALL_LENGTH];
    assert_eq!(rt; write(&book, &trains, &stops, &mut exact), Ok(SMALL_LENGTH));
    let mut short = [b'#'; SMALL_LENGTH - 1];
    let refusal = write(&book, &trains, &stops, &mut short);
    assert_eq!(rt; refusal, Err(Refusal::ShortBuffer));
    assert!(rt; short.iter().all(|byte| *byte == b'#'));
    let mut none = [0; 0];
    let refusal = write(&book, &trains, &stops, &mut none);
    assert_eq!(rt; refusal.err().map(|refusal| refusal.number()), Some(21));
    Ok(())
}

#[test]
fn an_empty_book_is_the_line_of_names(rt: HostRuntime) -> Result<(), Fail> {
    let mut buffer = [b'#'; 50];
    let length = write(&Book::new(), &[], &[], &mut buffer);
    assert_eq!(rt; length, Ok(NAMES.len()));
    assert!(rt; buffer.starts_with(NAMES));
    Ok(())
}

#[test]
fn damaged_tables_are_not_written(rt: HostRuntime) -> Result<(), Fail> {
    let mut trains = [TrainRow::BLANK; 3];
    let mut stops = [StopRow::BLANK; 7];
    let (book, _) = after(Book::new(), &mut trains, &mut stops, SMALL);
    trains[2].first = 4;
    let mut buffer = [b'#'; 10];
    let refusal = write(&book, &trains, &stops, &mut buffer);
    assert_eq!(rt; refusal.err().map(|refusal| refusal.number()), Some(1));
    assert!(rt; buffer == [b'#'; 10]);
    Ok(())
}
