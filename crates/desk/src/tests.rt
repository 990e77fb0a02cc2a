// What is shown, on examples. A value that gave up would keep its promise, which speaks of what was written.
use crate::asked::Asked;
use crate::command::Misuse;
use crate::expected::Expected;
use crate::input::{asked_if_any, next_line};
use crate::question::asked_by;
use crate::report::{Found, Leg, RowFault, Time, Wrong};
use calendar::refusal::Refusal;
use std::test::*;
use text::fault::{Cause, Fault};

const LEG: Leg = Leg {
    train: 11,
    day: 3,
    from: 1,
    leaves: 480,
    to: 3,
    arrives: 550,
};

const FOUND: Found = Found(Fault {
    cause: Cause::Malformed,
    line: 3,
    column: 18,
});

const BACKWARDS: RowFault = RowFault {
    line: 2,
    wrong: Wrong::Refused(Refusal::Backwards),
};

const UNREAD: RowFault = RowFault {
    line: 7,
    wrong: Wrong::Unread(Expected::Word),
};

#[test]
fn questions_legs_times_and_faults_are_shown(rt: HostRuntime) -> Result<(), Fail> {
    let alloc = rt.alloc();
    let question = asked_by(b"1 4 3 07:50 2 0 minutes:5")?.to_string(alloc)?;
    let asked = "1 -> 4 on 2000-01-04 from 07:50, changes 2, features 0, minutes:5";
    assert_eq!(rt; question.as_str(), asked);
    let leg = LEG.to_string(alloc)?;
    assert_eq!(rt;
        leg.as_str(),
        "  train 11 of 2000-01-04: 1 at 08:00 -> 3 at 09:10"
    );
    assert_eq!(rt; Time(1830).to_string(alloc)?.as_str(), "30:30");
    let found = FOUND.to_string(alloc)?;
    assert_eq!(rt;
        found.as_str(),
        "3:18: refused 19: the line or field is malformed"
    );
    let backwards = BACKWARDS.to_string(alloc)?;
    assert_eq!(rt;
        backwards.as_str(),
        "2: refused 24: a row's first day is after its last"
    );
    assert_eq!(rt; UNREAD.to_string(alloc)?.as_str(), "7: expected yes or no");
    Ok(())
}

const TARIFFS: [(Asked, &str); 3] = [
    (Asked::Minutes { penalty: 5 }, "minutes:5"),
    (Asked::Fares, "fares"),
    (Asked::Waits, "waits"),
];

const EXPECTED: [(Expected, &str); 10] = [
    (Expected::Origin, "FROM, a station's number"),
    (Expected::Destination, "TO, a station's number"),
    (
        Expected::Day,
        "a day, as a number up to 65535 or a date from 2000-01-01 to 2179-06-06",
    ),
    (Expected::Time, "a time of day, as 07:50"),
    (Expected::Changes, "a change limit, a number up to 255"),
    (Expected::Features, "features, a number up to 65535"),
    (
        Expected::Tariff,
        "a tariff: minutes:PENALTY, fares or waits",
    ),
    (Expected::Code, "a calendar code, a number up to 255"),
    (Expected::LastDay, "a last day, and nothing behind it"),
    (Expected::Word, "yes or no"),
];

const MISUSES: [(Misuse<&str>, &str); 3] = [
    (Misuse::UnknownWord("sell"), "unknown word `sell`"),
    (Misuse::NoFile("check"), "`check` is followed by no file"),
    (Misuse::Twice("--dates"), "`--dates` stands twice"),
];

#[test]
fn tariffs_what_is_expected_and_misuses_are_shown(rt: HostRuntime) -> Result<(), Fail> {
    let alloc = rt.alloc();
    for (tariff, words) in TARIFFS.iter() {
        assert_eq!(rt; tariff.to_string(alloc)?.as_str(), *words);
    }
    for (expected, words) in EXPECTED.iter() {
        assert_eq!(rt; expected.to_string(alloc)?.as_str(), *words);
    }
    for (misuse, words) in MISUSES.iter() {
        assert_eq!(rt; misuse.to_string(alloc)?.as_str(), *words);
    }
    Ok(())
}

// An empty line is one, a carriage return is a byte of its line, and the last line may lack its feed.
#[test]
fn lines_are_read_one_after_another_up_to_the_end(rt: HostRuntime) -> Result<(), Fail> {
    let mut input: &[u8] = b"1 4\n\n7\r\n8";
    let lines: [&[u8]; 4] = [b"1 4", b"", b"7\r", b"8"];
    let mut line = Vec::new(rt.alloc());
    for wanted in lines.iter() {
        assert!(rt; next_line(&mut input, &mut line)?);
        assert!(rt; line.as_slice() == *wanted);
    }
    assert!(rt; !next_line(&mut input, &mut line)?);
    assert!(rt; line.is_empty());
    Ok(())
}

#[test]
fn an_empty_line_asks_nothing(rt: HostRuntime) -> Result<(), Fail> {
    assert!(rt; asked_if_any(b"").is_none());
    assert!(rt; asked_if_any(b"7") == Some(Err(Expected::Destination)));
    Ok(())
}
