// Texts that fill a book, and one line more.
use crate::shelf::{NAMES, after, at, fault_in};
use book::rows::{StopRow, TrainRow};
use book::state::Book;
use std::alloc::Global;
use std::io::{self, Write};
use std::test::Fail;
use text::writing::write;

// Adds a train of eight stops to the text.
fn add_eight(text: &mut Vec<u8>, number: u16) -> io::Result<()> {
    write!(text, "{number},127,0,1,,00:00,100\n")?;
    for stop in 1..7u16 {
        let station = stop + 1;
        write!(text, "{number},127,0,{station},0{stop}:10,0{stop}:15,100\n")?;
    }
    write!(text, "{number},127,0,8,08:00,,\n")
}

// Trains 1 to 512, of eight stops each, fill a book.
fn full_text(heap: Global) -> io::Result<Vec<u8>> {
    let mut text = Vec::new(heap);
    text.write_all(NAMES)?;
    for number in 1..=512u16 {
        add_eight(&mut text, number)?;
    }
    Ok(text)
}

#[test]
fn a_text_of_512_trains_and_4096_stops_is_read_and_comes_back(rt: HostRuntime) -> Result<(), Fail> {
    let text = full_text(rt.alloc())?;
    let mut trains = [TrainRow::BLANK; 512];
    let mut stops = [StopRow::BLANK; 4096];
    let (book, fault) = after(Book::new(), &mut trains, &mut stops, &text);
    assert_eq!(rt; fault, None);
    assert_eq!(rt; book.trains(), 512);
    assert_eq!(rt; book.stops(), 4096);
    let mut buffer = vec![in rt.alloc(); 0u8; text.len()]?;
    assert_eq!(rt; write(&book, &trains, &stops, &mut buffer), Ok(text.len()));
    assert!(rt; buffer[..] == text[..]);
    Ok(())
}

#[test]
fn one_train_more_is_refused_at_its_line(rt: HostRuntime) -> Result<(), Fail> {
    let mut text = full_text(rt.alloc())?;
    add_eight(&mut text, 513)?;
    let mut trains = [TrainRow::BLANK; 520];
    let mut stops = [StopRow::BLANK; 4200];
    let fault = fault_in(&mut trains, &mut stops, &text);
    assert_eq!(rt; fault, Some(at(4, 4098, 0, 2)));
    Ok(())
}

#[test]
fn the_65th_stop_of_a_train_is_refused_at_its_line(rt: HostRuntime) -> Result<(), Fail> {
    let mut text = Vec::new(rt.alloc());
    text.write_all(NAMES)?;
    text.write_all(b"1,127,0,0,,00:00,1\n")?;
    for stop in 1..=64u16 {
        let hours = stop / 2 / 10 % 10;
        let ones = stop / 2 % 10;
        let half = stop % 2 * 3;
        write!(
            text,
            "1,127,0,{stop},{hours}{ones}:{half}0,{hours}{ones}:{half}5,1\n"
        )?;
    }
    let mut trains = [TrainRow::BLANK; 1];
    let mut stops = [StopRow::BLANK; 70];
    let fault = fault_in(&mut trains, &mut stops, &text);
    assert_eq!(rt; fault, Some(at(10, 66, 0, 2)));
    Ok(())
}
