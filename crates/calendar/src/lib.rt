// On which days trains run: a calendar answers for a train's calendar code and a day.
//
//     let mut calendar = Exceptions::new(Weekly);
//     calendar.runs_on(31, 101)                 // yes: code 31 is Monday to Friday, and day 101 is a Tuesday
//     calendar.note(31, 101, false)?;
//     calendar.runs_on(31, 101)                 // no: it is an exception now
//
// A day is a number from 0 to 65,535; day 0 is Saturday, 1 January 2000.
#![tactic(auto)]

ghost use Rattle.std.specs.Prelude.{◌≡◌};
ghost use Rattle.calendar.specs.Pairs.{Pairs};

pub mod date;
pub mod dated;
pub mod exceptions;
pub mod refusal;
#[cfg(test)]
mod tests;
pub mod weekday;
pub mod weekly;

pub trait Calendar {
    // The pairs of a code and a day on which a train with that code runs.
    ghost runs: { Self → Pairs };

    // Whether the pair is one of them.
    fn runs_on(&self, code: u8, day: u16) -> bool
        ensures { result ≡ runs self.now code day };
}
