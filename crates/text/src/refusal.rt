// Why a book is not written.
ghost use Rattle.std.specs.Prelude.{◌≡◌, Some};
ghost use Rattle.text.specs.Writing.{number, words_of};
ghost use Rattle.text.specs.declared.refusal.Refusal.TheVariants.{Book};

use book::refusal;
use std::error::Error;
use std::fmt;

#[derive(Clone, Copy, PartialEq, Eq, Debug)]
pub enum Refusal {
    // the book refuses the tables
    Book(refusal::Refusal),
    // the buffer is shorter than the text
    ShortBuffer,
}

impl Refusal {
    // The number under which agents know the refusal, which is part of the product.
    pub fn number(&self) -> u8
        ensures { result ≡ number self.now }
    {
        match self {
            Refusal::Book(reason) => reason.number(),
            Refusal::ShortBuffer => 21,
        }
    }
}

impl From<refusal::Refusal> for Refusal {
    ghost from_gives = { λ refusal r. r ≡ Book refusal };

    fn from(refusal: refusal::Refusal) -> Refusal {
        Refusal::Book(refusal)
    }
}

// In plain words.
impl fmt::Display for Refusal {
    ghost output = { λ r. Some (words_of r) };

    fn fmt<W: fmt::Write>(&self, f: &mut fmt::Formatter<W>) -> fmt::Result {
        match self {
            Refusal::Book(reason) => write!(f, "{reason}"),
            Refusal::ShortBuffer => write!(f, "the buffer is too short for the text"),
        }
    }
}

impl Error for Refusal {}
