// Why a call is refused.
ghost use Rattle.std.specs.Prelude.{◌≡◌, Some};
ghost use Rattle.book.specs.Refusals.{number, words};

use std::error::Error;
use std::fmt;

// In the order in which they are looked for.
#[derive(Clone, Copy, PartialEq, Eq, Debug)]
pub enum Refusal {
    // the rows in use do not fit the tables, leave a gap or break a rule of trains
    Damaged,
    // begin: the number is 0
    ZeroNumber,
    // begin: the number is in the book
    KnownNumber,
    // begin: MOST_TRAINS are in use, or the train table has no unused row
    NoTrainRow,
    // stop: the entry already has a stop without departure
    PastLast,
    // stop: the station is above LAST_STATION
    NoStation,
    // stop: the station is that of the stop before
    SameStation,
    // stop: a first stop with an arrival or without a departure, or a later one without an arrival
    WrongTimes,
    // stop: a time is above LAST_MINUTE or out of order
    BadTime,
    // stop: the entry has MOST_STOPS_OF_TRAIN, MOST_STOPS are in use with it, or the stop table has no unused row
    NoStopRow,
    // finish: the entry has no stop without departure
    Unfinished,
    // withdraw: no train has the number
    UnknownNumber,
}

// What a refused call gives back, as it was, and why.
pub struct Refused<S> {
    pub back: S,
    pub refusal: Refusal,
}

impl Refusal {
    // The number under which agents know the refusal, which is part of the product.
    pub fn number(&self) -> u8
        ensures { result ≡ number self.now }
    {
        match self {
            Refusal::Damaged => 1,
            Refusal::ZeroNumber => 2,
            Refusal::KnownNumber => 3,
            Refusal::NoTrainRow => 4,
            Refusal::PastLast => 5,
            Refusal::NoStation => 6,
            Refusal::SameStation => 7,
            Refusal::WrongTimes => 8,
            Refusal::BadTime => 9,
            Refusal::NoStopRow => 10,
            Refusal::Unfinished => 11,
            Refusal::UnknownNumber => 12,
        }
    }
}

impl fmt::Display for Refusal {
    ghost output = { λ refusal. Some (words refusal) };

    fn fmt<W: fmt::Write>(&self, f: &mut fmt::Formatter<W>) -> fmt::Result {
        match self {
            Refusal::Damaged => write!(f, "the tables do not hold what the book says"),
            Refusal::ZeroNumber => write!(f, "a train's number is not 0"),
            Refusal::KnownNumber => write!(f, "the number is in the book"),
            Refusal::NoTrainRow => write!(f, "there is no room for another train"),
            Refusal::PastLast => write!(f, "the train has come to its last stop"),
            Refusal::NoStation => write!(f, "a station is at most 1023"),
            Refusal::SameStation => write!(f, "the station is that of the stop before"),
            Refusal::WrongTimes => write!(
                f,
                "the first stop has a departure alone, a later one an arrival"
            ),
            Refusal::BadTime => write!(f, "a time is above 2879 or out of order"),
            Refusal::NoStopRow => write!(f, "there is no room for another stop"),
            Refusal::Unfinished => write!(f, "the train has not come to a last stop"),
            Refusal::UnknownNumber => write!(f, "no train has the number"),
        }
    }
}

impl Error for Refusal {}
