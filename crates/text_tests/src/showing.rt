// Each cause of a fault and each refusal under its number, in its words. One that gave up would keep its promise, which
// speaks of what was written.
use book::refusal;
use std::test::*;
use text::fault::Cause;
use text::refusal::Refusal;

const CAUSES: [(Cause, u8, &str); 4] = [
    (Cause::Names, 18, "the first line is not the line of names"),
    (Cause::Malformed, 19, "the line or field is malformed"),
    (
        Cause::Differs,
        20,
        "the train, code or features differ from those of the open train",
    ),
    (
        Cause::Book(refusal::Refusal::ZeroNumber),
        2,
        "a train's number is not 0",
    ),
];

const REFUSALS: [(Refusal, u8, &str); 2] = [
    (
        Refusal::Book(refusal::Refusal::Damaged),
        1,
        "the tables do not hold what the book says",
    ),
    (
        Refusal::ShortBuffer,
        21,
        "the buffer is too short for the text",
    ),
];

#[test]
fn each_cause_and_refusal_has_its_number_and_is_shown_in_its_words(
    rt: HostRuntime,
) -> Result<(), Fail> {
    let alloc = rt.alloc();
    for (cause, number, words) in CAUSES.iter() {
        assert_eq!(rt; cause.number(), *number);
        assert_eq!(rt; cause.to_string(alloc)?.as_str(), *words);
    }
    for (refusal, number, words) in REFUSALS.iter() {
        assert_eq!(rt; refusal.number(), *number);
        assert_eq!(rt; refusal.to_string(alloc)?.as_str(), *words);
    }
    Ok(())
}
