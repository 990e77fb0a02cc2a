// What agents write at the desk and what they are shown, as functions on values: the program only reads and prints.
//
//     1 4 3 07:50 2 0 minutes:5     the cheapest connection by minutes, with 5 for each change: from station 1 to station 4,
//                                   on day 3 from 07:50 on, with 2 changes at most and no features wanted
//     31,2000-01-01,2000-12-31      code 31 runs on each of these days
//     31,2000-01-06,no              but not on this one
#![tactic(auto)]

pub mod asked;
pub mod command;
pub mod days;
pub mod expected;
pub mod input;
pub mod leg;
pub mod question;
pub mod report;
pub mod rows;
#[cfg(test)]
mod tests;
