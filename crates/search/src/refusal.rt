// Why a search is refused.
ghost use Rattle.std.specs.Prelude.{◌≡◌, Some};
ghost use Rattle.search.specs.Refusals.{number, words_of};
ghost use Rattle.search.specs.declared.refusal.Refusal.TheVariants.{Book};

use book::refusal;
use std::error::Error;
use std::fmt;

// In the order in which they are looked for.
#[derive(Clone, Copy, PartialEq, Eq, Debug)]
pub enum Refusal {
    // the book refuses the tables
    Book(refusal::Refusal),
    // a station is above LAST_STATION, the day is 0 or from LAST_DAY on, the minute is above LAST_MINUTE_OF_DAY or the change
    // limit above MOST_CHANGES
    BadQuery,
    // origin and destination are equal
    SameStation,
    // the ride list is shorter than the change limit and one more
    ShortRides,
    // the work table has fewer than three records for each stop in use and each ride
    ShortWork,
    // there is no connection
    NoConnection,
}

impl Refusal {
    // The number under which agents know the refusal, which is part of the product.
    pub fn number(&self) -> u8
        ensures { result ≡ number self.now }
    {
        match self {
            Refusal::Book(reason) => reason.number(),
            Refusal::BadQuery => 13,
            Refusal::SameStation => 14,
            Refusal::ShortRides => 15,
            Refusal::ShortWork => 16,
            Refusal::NoConnection => 17,
        }
    }
}

impl From<refusal::Refusal> for Refusal {
    ghost from_gives = { λ refusal r. r ≡ Book refusal };

    fn from(refusal: refusal::Refusal) -> Refusal {
        Refusal::Book(refusal)
    }
}

// In plain words.
impl fmt::Display for Refusal {
    ghost output = { λ r. Some (words_of r) };

    fn fmt<W: fmt::Write>(&self, f: &mut fmt::Formatter<W>) -> fmt::Result {
        match self {
            Refusal::Book(reason) => write!(f, "{reason}"),
            Refusal::BadQuery => {
                write!(
                    f,
                    "a station, the day, the minute or the change limit is out of bounds"
                )
            }
            Refusal::SameStation => write!(f, "origin and destination are equal"),
            Refusal::ShortRides => write!(f, "the ride list is too short"),
            Refusal::ShortWork => write!(f, "the work table is too short"),
            Refusal::NoConnection => write!(f, "no connection"),
        }
    }
}

impl Error for Refusal {}
