// Calendars and dates on worked examples.
use crate::Calendar;
use crate::date::Date;
use crate::dated::{DateRow, Dated};
use crate::exceptions::Exceptions;
use crate::refusal::Refusal;
use crate::weekday::Weekday;
use crate::weekly::Weekly;
use std::test::Fail;

fn on(year: u16, month: u8, day: u8) -> Date {
    Date { year, month, day }
}

// Dates and weekdays that another calendar program gave.
#[test]
fn days_have_their_dates_and_weekdays(rt: HostRuntime) {
    let days = [
        (0, on(2000, 1, 1), Weekday::Saturday),
        (58, on(2000, 2, 28), Weekday::Monday),
        (59, on(2000, 2, 29), Weekday::Tuesday),
        (60, on(2000, 3, 1), Weekday::Wednesday),
        (365, on(2000, 12, 31), Weekday::Sunday),
        (366, on(2001, 1, 1), Weekday::Monday),
        (1520, on(2004, 2, 29), Weekday::Sunday),
        (36583, on(2100, 2, 28), Weekday::Sunday),
        (36584, on(2100, 3, 1), Weekday::Monday),
        (65535, on(2179, 6, 6), Weekday::Sunday),
    ];
    for (day, date, weekday) in days.iter() {
        assert_eq!(rt; Date::of(*day), *date);
        assert_eq!(rt; Weekday::of(*day), *weekday);
    }
}

#[test]
fn a_written_date_gives_its_day(rt: HostRuntime) {
    let dates = [
        ("2000-01-01", on(2000, 1, 1), Some(0)),
        ("2000-02-29", on(2000, 2, 29), Some(59)),
        ("2000-12-31", on(2000, 12, 31), Some(365)),
        ("2100-03-01", on(2100, 3, 1), Some(36584)),
        ("2179-06-06", on(2179, 6, 6), Some(65535)),
        ("2179-06-07", on(2179, 6, 7), None),
        ("2180-01-01", on(2180, 1, 1), None),
        ("1999-12-31", on(1999, 12, 31), None),
        ("0000-02-29", on(0, 2, 29), None),
        ("9999-12-31", on(9999, 12, 31), None),
    ];
    for (text, date, day) in dates.iter() {
        assert_eq!(rt; Date::written(text.as_bytes()), Some(*date));
        assert_eq!(rt; date.day(), *day);
    }
}

#[test]
fn what_is_not_written_as_a_date_is_none(rt: HostRuntime) {
    let texts = [
        "2001-02-29",
        "2100-02-29",
        "2000-04-31",
        "2000-13-01",
        "2000-00-10",
        "2000-01-00",
        "2000-01-32",
        "2000-1-1",
        "2000-01-001",
        "2000-01-0a",
        "+000-01-01",
        "2000/01/01",
        "2000-01/01",
        "20000101",
        "",
    ];
    for text in texts.iter() {
        assert_eq!(rt; Date::written(text.as_bytes()), None);
    }
    assert_eq!(rt; on(2100, 2, 29).day(), None);
    assert_eq!(rt; on(2000, 13, 1).day(), None);
    assert_eq!(rt; on(2000, 1, 0).day(), None);
}

// Days 2 and 65,529 are Mondays, and bit 7 says nothing.
#[test]
fn a_weekly_code_runs_on_the_weekdays_of_its_bits(rt: HostRuntime) {
    for weekday in 0..7u16 {
        for bit in 0..7u16 {
            let code = 1u8 << bit;
            assert_eq!(rt; Weekly.runs_on(code, 2 + weekday), bit == weekday);
            assert_eq!(rt; Weekly.runs_on(code, 65529 + weekday), bit == weekday);
        }
        assert!(rt; !Weekly.runs_on(128, 2 + weekday));
        assert!(rt; Weekly.runs_on(127, 2 + weekday));
    }
}

#[test]
fn a_dated_row_covers_its_days_and_no_other(rt: HostRuntime) -> Result<(), Fail> {
    let rows = [
        DateRow {
            code: 1,
            first: 3,
            last: 5,
        },
        DateRow {
            code: 2,
            first: 7,
            last: 7,
        },
    ];
    let calendar = Dated::new(&rows)?;
    let asked = [
        (1, 2, false),
        (1, 3, true),
        (1, 5, true),
        (1, 6, false),
        (2, 4, false),
        (2, 6, false),
        (2, 7, true),
        (2, 8, false),
    ];
    for (code, day, runs) in asked.iter() {
        assert_eq!(rt; calendar.runs_on(*code, *day), *runs);
    }
    Ok(())
}

#[test]
fn a_backward_row_is_refused_under_24(rt: HostRuntime) {
    let rows = [DateRow {
        code: 1,
        first: 5,
        last: 4,
    }];
    let refusal = Dated::new(&rows).err();
    assert_eq!(rt; refusal.map(|reason| reason.number()), Some(24));
}

#[test]
fn the_last_word_for_a_pair_counts(rt: HostRuntime) {
    let mut calendar = Exceptions::new(Weekly);
    assert!(rt; calendar.runs_on(1, 2));
    assert!(rt; calendar.note(1, 2, false) == Ok(()));
    assert!(rt; !calendar.runs_on(1, 2));
    assert!(rt; calendar.note(1, 2, true) == Ok(()));
    assert!(rt; calendar.runs_on(1, 2));
    assert!(rt; !calendar.runs_on(1, 3));
}

#[test]
fn the_65th_pair_is_refused_under_23_and_the_64th_is_not(rt: HostRuntime) {
    let mut calendar = Exceptions::new(Weekly);
    for day in 0..64 {
        assert!(rt; calendar.note(0, day, true) == Ok(()));
    }
    assert!(rt; calendar.runs_on(0, 63));
    assert!(rt; calendar.note(0, 64, true) == Err(Refusal::Full));
    assert!(rt; !calendar.runs_on(0, 64));
    assert_eq!(rt; Refusal::Full.number(), 23);
    assert!(rt; calendar.note(0, 63, false) == Ok(()));
    assert!(rt; !calendar.runs_on(0, 63));
}

// A date, a weekday or a refusal that gave up would keep its promise, which speaks of what was written.
#[test]
fn dates_weekdays_and_refusals_are_shown(rt: HostRuntime) -> Result<(), Fail> {
    let alloc = rt.alloc();
    let date = on(2000, 1, 2).to_string(alloc)?;
    assert_eq!(rt; date.as_str(), "2000-01-02");
    let weekdays = [
        (2, "Monday"),
        (3, "Tuesday"),
        (4, "Wednesday"),
        (5, "Thursday"),
        (6, "Friday"),
        (7, "Saturday"),
        (8, "Sunday"),
    ];
    for (day, name) in weekdays.iter() {
        assert_eq!(rt; Weekday::of(*day).to_string(alloc)?.as_str(), *name);
    }
    let full = Refusal::Full.to_string(alloc)?;
    assert_eq!(rt;
        full.as_str(),
        "64 exceptions are listed, and none of them is for this pair"
    );
    let backwards = Refusal::Backwards.to_string(alloc)?;
    assert_eq!(rt; backwards.as_str(), "a row's first day is after its last");
    Ok(())
}
