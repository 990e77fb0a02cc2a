// The timetable book: trains filled in stop by stop, and withdrawn.
//
//     begin -> entry -> stop -> stop -> .. -> finish -> book          (src/example.rt has it in full)
//                          \\____________________-> abandon -> book
//
// The rows live in two tables that the caller lends to every call; a book is only the counts of rows in use.
//
//     train table   | 11 first 0 count 3 | 12 first 3 count 2 | unused ..
//     stop table    | 1 | 2 | 3 | 2 | 3 | unused ..
//                    \__ 11 ___/ \_ 12 _/
//
// The tables may hold anything: each call looks them over and refuses what does not hold. Who makes many calls in a row
// lends them once (`lending`), and they are looked over once. No crate below `office` allocates, so they are slices, with
// the counts in the book. They stay two parameters, since a struct of both would ask for the right to write in calls that
// only read: `begin` and `check` read both, `stop` writes one, `finish` the other.
#![tactic(auto)]

pub mod entering;
mod example;
pub mod histories;
mod judging;
pub mod lending;
pub mod limits;
mod moves;
pub mod reading;
pub mod reasons;
pub mod refusal;
pub mod rows;
mod rules;
pub mod state;
mod tables;
mod types;
pub mod withdrawing;
