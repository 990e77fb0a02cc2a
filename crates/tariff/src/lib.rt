// What a journey costs: a tariff adds up a journey's steps and says which of two totals is at most the other.
//
//     let tariff = Minutes::new(5)?;
//     let total = tariff.total_of(&steps);      // all minutes, and 5 more for each change
//     println!(rt; "{total}")?;                 // 125 minutes
//
// Each of the three tariffs says what a step adds to its cost (`cost`); the count of steps and its limit are said once,
// for all (`tally`).
//
// Whatever looks for the cheapest of many is written once, over `P: Tariff`, and proved once, from the laws below.
#![tactic(auto)]

ghost use Rattle.std.specs.Prelude.{◌≡◌};
ghost use Rattle.tariff.specs.Laws.{Connex, Transitive, Grows, Keeps, Starts, Counts, Stops};
ghost use Rattle.tariff.specs.Meaning.{Meaning};

pub mod cost;
pub mod fares;
pub mod journey;
pub mod minutes;
pub mod refusal;
pub mod step;
pub mod tally;
#[cfg(test)]
mod tests;
pub mod waits;

use step::Step;

// A total with this many steps takes no further step.
pub const MOST_STEPS: u16 = 8640;

// A way to price a journey, step by step from the empty total.
pub trait Tariff {
    type Total: Copy;

    // The empty total, what a step makes of a total, which totals are at most which, and how many steps one has.
    ghost meaning: { Self → Meaning Self.Total };

    // The total of no steps.
    fn empty(&self) -> Self::Total
        ensures { result ≡ (meaning self.now).empty };

    // The total with the step added; unchanged where it has `MOST_STEPS` steps.
    fn add(&self, total: Self::Total, step: Step) -> Self::Total
        ensures { result ≡ (meaning self.now).add total step };

    // Whether `a` costs no more than `b`.
    fn at_most(&self, a: Self::Total, b: Self::Total) -> bool
        ensures { result ≡ (meaning self.now).at_most a b };

    // How many steps the total has.
    fn steps(&self, total: Self::Total) -> u16
        ensures { result ≡ (meaning self.now).steps total };

    // Of two totals one is at most the other ..
    ghost connex: { (t : Self) → Connex (meaning t) };

    // .. and "at most" passes along.
    ghost transitive: { (t : Self) → Transitive (meaning t) };

    // A step more never makes a total smaller.
    ghost grows: { (t : Self) → Grows (meaning t) };

    // The same step added to two totals with room keeps their order.
    ghost keeps: { (t : Self) → Keeps (meaning t) };

    // The empty total has no steps, an addition makes one more, and a full total stays as it is.
    ghost starts: { (t : Self) → Starts (meaning t) };

    ghost counts: { (t : Self) → Counts (meaning t) };

    ghost stops: { (t : Self) → Stops (meaning t) };
}
