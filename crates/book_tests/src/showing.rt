// Each refusal under its number, in its words. One that gave up would keep its promise, which speaks of what was written.
use book::refusal::Refusal;
use std::test::*;

const SHOWN: [(Refusal, u8, &str); 12] = [
    (
        Refusal::Damaged,
        1,
        "the tables do not hold what the book says",
    ),
    (Refusal::ZeroNumber, 2, "a train's number is not 0"),
    (Refusal::KnownNumber, 3, "the number is in the book"),
    (Refusal::NoTrainRow, 4, "there is no room for another train"),
    (Refusal::PastLast, 5, "the train has come to its last stop"),
    (Refusal::NoStation, 6, "a station is at most 1023"),
    (
        Refusal::SameStation,
        7,
        "the station is that of the stop before",
    ),
    (
        Refusal::WrongTimes,
        8,
        "the first stop has a departure alone, a later one an arrival",
    ),
    (Refusal::BadTime, 9, "a time is above 2879 or out of order"),
    (Refusal::NoStopRow, 10, "there is no room for another stop"),
    (
        Refusal::Unfinished,
        11,
        "the train has not come to a last stop",
    ),
    (Refusal::UnknownNumber, 12, "no train has the number"),
];

#[test]
fn each_refusal_has_its_number_and_is_shown_in_its_words(rt: HostRuntime) -> Result<(), Fail> {
    let alloc = rt.alloc();
    for (refusal, number, words) in SHOWN.iter() {
        assert_eq!(rt; refusal.number(), *number);
        assert_eq!(rt; refusal.to_string(alloc)?.as_str(), *words);
    }
    Ok(())
}
