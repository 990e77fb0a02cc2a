// Each refusal under its number, in its words. One that gave up would keep its promise, which speaks of what was written.
use book::refusal;
use search::refusal::Refusal;
use std::test::*;

const SHOWN: [(Refusal, u8, &str); 6] = [
    (
        Refusal::Book(refusal::Refusal::Damaged),
        1,
        "the tables do not hold what the book says",
    ),
    (
        Refusal::BadQuery,
        13,
        "a station, the day, the minute or the change limit is out of bounds",
    ),
    (Refusal::SameStation, 14, "origin and destination are equal"),
    (Refusal::ShortRides, 15, "the ride list is too short"),
    (Refusal::ShortWork, 16, "the work table is too short"),
    (Refusal::NoConnection, 17, "no connection"),
];

#[test]
fn each_refusal_has_its_number_and_is_shown_in_its_words(rt: HostRuntime) -> Result<(), Fail> {
    let alloc = rt.alloc();
    for (refusal, number, words) in SHOWN.iter() {
        assert_eq!(rt; refusal.number(), *number);
        assert_eq!(rt; refusal.to_string(alloc)?.as_str(), *words);
    }
    Ok(())
}
