// Broken texts: the number of each fault, its line and column, and the layer that finds it.
use crate::shelf::{NAMES, Place, at, fault_in};
use book::rows::{StopRow, TrainRow};
use std::alloc::{AllocError, Global};
use std::test::Fail;

// A text, and where it is broken.
type Broken = (&'static str, Place);

// The line of names, and these lines behind it.
fn text_of(heap: Global, lines: &str) -> Result<Vec<u8>, AllocError> {
    let mut text = Vec::new(heap);
    text.extend_from_slice(NAMES)?;
    text.extend_from_slice(lines.as_bytes())?;
    Ok(text)
}

// Where lines behind the line of names are broken, with room for 3 trains and 20 stops.
fn fault_of(heap: Global, lines: &str) -> Result<Option<Place>, AllocError> {
    let mut trains = [TrainRow::BLANK; 3];
    let mut stops = [StopRow::BLANK; 20];
    let text = text_of(heap, lines)?;
    Ok(fault_in(&mut trains, &mut stops, &text))
}

#[test]
fn a_wrong_count_or_a_missing_line_feed_is_found_ahead_of_the_fields(
    rt: HostRuntime,
) -> Result<(), Fail> {
    let broken: [Broken; 12] = [
        ("11,127,1,1,,08:00\n", at(19, 2, 0, 1)),
        ("11,127,1,1,,08:00,300,\n", at(19, 2, 0, 1)),
        ("\n", at(19, 2, 0, 1)),
        ("11\n", at(19, 2, 0, 1)),
        (",,,,,,,\n", at(19, 2, 0, 1)),
        ("11,127,1,1,,08:00,300", at(19, 2, 0, 1)),
        ("11", at(19, 2, 0, 1)),
        ("x,127,1,1,,08:00\n", at(19, 2, 0, 1)),
        ("x,127,1,1,,08:00,300", at(19, 2, 0, 1)),
        ("x,127", at(19, 2, 0, 1)),
        ("11,127,1,1,,08:00,300\n11,127,1,2,08:30,,", at(19, 3, 0, 1)),
        (
            "11,127,1,1,,08:00,300\n11,127,1,2,08:30,,\n\n",
            at(19, 4, 0, 1),
        ),
    ];
    for (lines, place) in broken {
        let fault = fault_of(rt.alloc(), lines)?;
        assert_eq!(rt; fault, Some(place));
    }
    Ok(())
}

#[test]
fn a_malformed_number_is_found_in_its_column(rt: HostRuntime) -> Result<(), Fail> {
    let broken: [Broken; 22] = [
        (",127,1,1,,08:00,300\n", at(19, 2, 1, 1)),
        ("011,127,1,1,,08:00,300\n", at(19, 2, 1, 1)),
        ("00,127,1,1,,08:00,300\n", at(19, 2, 1, 1)),
        ("65536,127,1,1,,08:00,300\n", at(19, 2, 1, 1)),
        (
            "99999999999999999999999,127,1,1,,08:00,300\n",
            at(19, 2, 1, 1),
        ),
        ("+11,127,1,1,,08:00,300\n", at(19, 2, 1, 1)),
        ("-1,127,1,1,,08:00,300\n", at(19, 2, 1, 1)),
        (" 11,127,1,1,,08:00,300\n", at(19, 2, 1, 1)),
        ("1a,127,1,1,,08:00,300\n", at(19, 2, 1, 1)),
        ("11,256,1,1,,08:00,300\n", at(19, 2, 4, 1)),
        ("11,,1,1,,08:00,300\n", at(19, 2, 4, 1)),
        ("11,0127,1,1,,08:00,300\n", at(19, 2, 4, 1)),
        ("11,127,65536,1,,08:00,300\n", at(19, 2, 8, 1)),
        ("11,127,,1,,08:00,300\n", at(19, 2, 8, 1)),
        ("11,127,1,,,08:00,300\n", at(19, 2, 10, 1)),
        ("11,127,1,65536,,08:00,300\n", at(19, 2, 10, 1)),
        ("11,127,1,é,,08:00,300\n", at(19, 2, 10, 1)),
        ("11,127,1,1,,08:00,65536\n", at(19, 2, 19, 1)),
        ("11,127,1,1,,08:00,03\n", at(19, 2, 19, 1)),
        ("11,127,1,1,,08:00,300\r\n", at(19, 2, 19, 1)),
        ("11,127,1,1,,08:00,3 \n", at(19, 2, 19, 1)),
        ("65535,255,65535,1023,,08:00,é\n", at(19, 2, 29, 1)),
    ];
    for (lines, place) in broken {
        let fault = fault_of(rt.alloc(), lines)?;
        assert_eq!(rt; fault, Some(place));
    }
    Ok(())
}

#[test]
fn a_malformed_time_or_fare_is_found_in_its_column(rt: HostRuntime) -> Result<(), Fail> {
    let broken: [Broken; 18] = [
        ("11,127,1,1,8:00,08:00,300\n", at(19, 2, 12, 1)),
        ("11,127,1,1,08:60,08:00,300\n", at(19, 2, 12, 1)),
        ("11,127,1,1,08.00,08:00,300\n", at(19, 2, 12, 1)),
        ("11,127,1,1,0800,08:00,300\n", at(19, 2, 12, 1)),
        ("11,127,1,1,08:000,08:00,300\n", at(19, 2, 12, 1)),
        ("11,127,1,1,0a:00,08:00,300\n", at(19, 2, 12, 1)),
        ("11,127,1,1,08:0a,08:00,300\n", at(19, 2, 12, 1)),
        ("11,127,1,1,:8:00,08:00,300\n", at(19, 2, 12, 1)),
        ("11,127,1,1,-,08:00,300\n", at(19, 2, 12, 1)),
        ("11,127,1,1, ,08:00,300\n", at(19, 2, 12, 1)),
        ("11,127,1,1,,08:60,300\n", at(19, 2, 13, 1)),
        ("11,127,1,1,,8:00,300\n", at(19, 2, 13, 1)),
        ("11,127,1,1,,100:00,300\n", at(19, 2, 13, 1)),
        ("11,127,1,1,07:00,08:75,300\n", at(19, 2, 18, 1)),
        ("11,127,1,1,,08:00,\n", at(19, 2, 19, 1)),
        ("11,127,1,1,,,300\n", at(19, 2, 14, 1)),
        ("11,127,1,1,08:30,,0\n", at(19, 2, 19, 1)),
        ("11,127,1,1,,,\r\n", at(19, 2, 14, 1)),
    ];
    for (lines, place) in broken {
        let fault = fault_of(rt.alloc(), lines)?;
        assert_eq!(rt; fault, Some(place));
    }
    Ok(())
}

#[test]
fn of_several_malformed_fields_the_leftmost_counts(rt: HostRuntime) -> Result<(), Fail> {
    let broken: [Broken; 6] = [
        ("x,x,x,x,x,x,x\n", at(19, 2, 1, 1)),
        ("11,256,65536,x,x,x,x\n", at(19, 2, 4, 1)),
        ("11,127,65536,x,x,x,x\n", at(19, 2, 8, 1)),
        ("11,127,1,65536,x,x,x\n", at(19, 2, 10, 1)),
        ("11,127,1,1,08:60,08:60,x\n", at(19, 2, 12, 1)),
        ("11,127,1,1,,08:60,x\n", at(19, 2, 13, 1)),
    ];
    for (lines, place) in broken {
        let fault = fault_of(rt.alloc(), lines)?;
        assert_eq!(rt; fault, Some(place));
    }
    Ok(())
}

#[test]
fn a_line_of_another_train_is_found_behind_what_is_malformed_and_ahead_of_the_book(
    rt: HostRuntime,
) -> Result<(), Fail> {
    let broken: [Broken; 11] = [
        ("12,127,1,2,08:30,08:35,200\n", at(20, 3, 1, 1)),
        ("11,126,1,2,08:30,08:35,200\n", at(20, 3, 1, 1)),
        ("11,127,0,2,08:30,08:35,200\n", at(20, 3, 1, 1)),
        ("12,127,1,2,08:30,,\n", at(20, 3, 1, 1)),
        ("12,127,1,2,08:30,08:35\n", at(19, 3, 0, 1)),
        ("12,127,1,2,08:30,08:35,200", at(19, 3, 0, 1)),
        ("12,127,1,2,08:30,08:35,x\n", at(19, 3, 24, 1)),
        ("12,127,1,1024,08:30,08:35,200\n", at(20, 3, 1, 1)),
        ("12,127,1,1,08:30,08:35,200\n", at(20, 3, 1, 1)),
        ("12,127,1,2,,08:35,200\n", at(20, 3, 1, 1)),
        ("0,127,1,2,07:00,08:35,200\n", at(20, 3, 1, 1)),
    ];
    for (second, place) in broken {
        let mut text = text_of(rt.alloc(), "11,127,1,1,,08:00,300\n")?;
        text.extend_from_slice(second.as_bytes())?;
        let mut trains = [TrainRow::BLANK; 3];
        let mut stops = [StopRow::BLANK; 20];
        let fault = fault_in(&mut trains, &mut stops, &text);
        assert_eq!(rt; fault, Some(place));
    }
    Ok(())
}

#[test]
fn a_beginning_that_the_book_refuses_is_found_at_its_line(rt: HostRuntime) -> Result<(), Fail> {
    let broken: [Broken; 8] = [
        ("0,127,1,1,,08:00,300\n", at(2, 2, 0, 2)),
        (
            "11,1,0,1,,08:00,3\n11,1,0,2,08:30,,\n11,9,9,5,,09:00,1\n",
            at(3, 4, 0, 2),
        ),
        ("11,127,1,1024,,08:00,300\n", at(6, 2, 0, 2)),
        ("11,127,1,65535,,08:00,300\n", at(6, 2, 0, 2)),
        ("11,127,1,1,07:00,08:00,300\n", at(8, 2, 0, 2)),
        ("11,127,1,1,,,\n", at(8, 2, 0, 2)),
        ("11,127,1,1,08:00,,\n", at(8, 2, 0, 2)),
        ("11,127,1,1,,48:00,300\n", at(9, 2, 0, 2)),
    ];
    for (lines, place) in broken {
        let fault = fault_of(rt.alloc(), lines)?;
        assert_eq!(rt; fault, Some(place));
    }
    Ok(())
}

#[test]
fn a_later_stop_that_the_book_refuses_is_found_at_its_line(rt: HostRuntime) -> Result<(), Fail> {
    let broken: [Broken; 8] = [
        (
            "11,127,1,1,,08:00,300\n11,127,1,1,08:30,08:35,200\n",
            at(7, 3, 0, 2),
        ),
        (
            "11,127,1,1,,08:00,300\n11,127,1,2,,08:35,200\n",
            at(8, 3, 0, 2),
        ),
        (
            "11,127,1,1,,08:00,300\n11,127,1,2,48:00,,\n",
            at(9, 3, 0, 2),
        ),
        (
            "11,127,1,1,,08:00,300\n11,127,1,2,08:00,08:05,1\n",
            at(9, 3, 0, 2),
        ),
        (
            "11,127,1,1,,08:00,300\n11,127,1,2,08:30,08:29,1\n",
            at(9, 3, 0, 2),
        ),
        ("11,127,1,1,,08:00,300\n", at(11, 2, 0, 2)),
        (
            "11,127,1,1,,08:00,300\n11,127,1,2,08:30,08:35,200\n",
            at(11, 3, 0, 2),
        ),
        (
            "11,1,0,1,,08:00,3\n11,1,0,2,08:30,,\n12,1,0,5,,09:00,1\n",
            at(11, 4, 0, 2),
        ),
    ];
    for (lines, place) in broken {
        let fault = fault_of(rt.alloc(), lines)?;
        assert_eq!(rt; fault, Some(place));
    }
    Ok(())
}

#[test]
fn of_several_refusals_the_earliest_listed_counts(rt: HostRuntime) -> Result<(), Fail> {
    let broken: [Broken; 12] = [
        ("0,127,1,1,,08:60,300\n", at(19, 2, 12, 1)),
        ("11,127,1,1024,,08:00,x\n", at(19, 2, 22, 1)),
        ("11,127,1,1,07:00,08:00,\n", at(19, 2, 24, 1)),
        ("0,127,1,1024,,08:00,300\n", at(2, 2, 0, 2)),
        (
            "11,1,0,1,,08:00,3\n11,1,0,2,08:30,,\n11,1,0,1024,,09:00,1\n",
            at(3, 4, 0, 2),
        ),
        ("11,127,1,1024,07:00,08:00,300\n", at(6, 2, 0, 2)),
        ("11,127,1,1024,,48:00,300\n", at(6, 2, 0, 2)),
        (
            "11,127,1,1,,08:00,300\n11,127,1,1,,08:35,200\n",
            at(7, 3, 0, 2),
        ),
        (
            "11,127,1,1,,08:00,300\n11,127,1,1,07:00,08:35,200\n",
            at(7, 3, 0, 2),
        ),
        ("11,127,1,1,50:00,48:00,300\n", at(8, 2, 0, 2)),
        ("11,127,1,1,48:00,,\n", at(8, 2, 0, 2)),
        (
            "11,127,1,1,,08:00,300\n11,127,1,2,,48:00,200\n",
            at(8, 3, 0, 2),
        ),
    ];
    for (lines, place) in broken {
        let fault = fault_of(rt.alloc(), lines)?;
        assert_eq!(rt; fault, Some(place));
    }
    Ok(())
}

#[test]
fn a_full_train_table_is_found_behind_the_number_and_ahead_of_the_stop(
    rt: HostRuntime,
) -> Result<(), Fail> {
    let broken: [Broken; 5] = [
        ("12,1,0,5,,09:00,1\n", at(4, 4, 0, 2)),
        ("0,1,0,5,,09:00,1\n", at(2, 4, 0, 2)),
        ("11,1,0,5,,09:00,1\n", at(3, 4, 0, 2)),
        ("12,1,0,1024,,48:00,1\n", at(4, 4, 0, 2)),
        ("12,1,0,1024,,48:00,\n", at(19, 4, 20, 1)),
    ];
    for (third, place) in broken {
        let mut text = text_of(rt.alloc(), "11,1,0,1,,08:00,3\n11,1,0,2,08:30,,\n")?;
        text.extend_from_slice(third.as_bytes())?;
        let mut trains = [TrainRow::BLANK; 1];
        let mut stops = [StopRow::BLANK; 20];
        let fault = fault_in(&mut trains, &mut stops, &text);
        assert_eq!(rt; fault, Some(place));
    }
    Ok(())
}

#[test]
fn a_full_stop_table_is_found_last(rt: HostRuntime) -> Result<(), Fail> {
    let broken: [Broken; 6] = [
        ("11,1,0,2,08:30,,\n", at(10, 3, 0, 2)),
        ("11,1,0,1024,08:30,,\n", at(6, 3, 0, 2)),
        ("11,1,0,1,08:30,,\n", at(7, 3, 0, 2)),
        ("11,1,0,2,,08:30,1\n", at(8, 3, 0, 2)),
        ("11,1,0,2,08:00,,\n", at(9, 3, 0, 2)),
        ("12,1,0,2,08:30,,\n", at(20, 3, 1, 1)),
    ];
    for (second, place) in broken {
        let mut text = text_of(rt.alloc(), "11,1,0,1,,08:00,3\n")?;
        text.extend_from_slice(second.as_bytes())?;
        let mut trains = [TrainRow::BLANK; 1];
        let mut stops = [StopRow::BLANK; 1];
        let fault = fault_in(&mut trains, &mut stops, &text);
        assert_eq!(rt; fault, Some(place));
    }
    let fault = fault_in(
        &mut [],
        &mut [],
        &text_of(rt.alloc(), "11,1,0,1,,08:00,3\n")?,
    );
    assert_eq!(rt; fault, Some(at(4, 2, 0, 2)));
    Ok(())
}

#[test]
fn the_first_line_is_the_line_of_names(rt: HostRuntime) -> Result<(), Fail> {
    let broken: [&str; 9] = [
        "",
        "\n",
        "train,code,features,station,arrive,depart,fare",
        "train,code,features,station,arrive,depart,fare\r\n",
        "train,code,features,station,arrive,depart,fare \n",
        " train,code,features,station,arrive,depart,fare\n",
        "Train,code,features,station,arrive,depart,fare\n",
        "train,code,features,station,arrive,depart,fare,\n",
        "11,127,1,1,,08:00,300\n11,127,1,2,08:30,,\n",
    ];
    for text in broken {
        let mut trains = [TrainRow::BLANK; 3];
        let mut stops = [StopRow::BLANK; 20];
        let fault = fault_in(&mut trains, &mut stops, text.as_bytes());
        assert_eq!(rt; fault, Some(at(18, 1, 0, 1)));
    }
    Ok(())
}
