// Why a calendar is not made or not changed.
ghost use Rattle.std.specs.Prelude.{◌≡◌, Some};
ghost use Rattle.calendar.specs.Refusals.{number, text_of};

use std::error::Error;
use std::fmt;

#[derive(Clone, Copy, PartialEq, Eq, Debug)]
pub enum Refusal {
    // 64 exceptions are listed, and none of them is for the new pair
    Full,
    // a row's first day is after its last
    Backwards,
}

impl Refusal {
    // The number under which agents know the refusal, which is part of the product.
    pub fn number(&self) -> u8
        ensures { result ≡ number self.now }
    {
        match self {
            Refusal::Full => 23,
            Refusal::Backwards => 24,
        }
    }
}

// Why, in a sentence of its own.
impl fmt::Display for Refusal {
    ghost output = { λ r. Some (text_of r) };

    fn fmt<W: fmt::Write>(&self, f: &mut fmt::Formatter<W>) -> fmt::Result {
        f.write_str(match self {
            Refusal::Full => "64 exceptions are listed, and none of them is for this pair",
            Refusal::Backwards => "a row's first day is after its last",
        })
    }
}

impl Error for Refusal {}
