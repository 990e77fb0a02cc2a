// What a connection is and what it costs.
//
//     query     from 1 to 4 on day 3, from minute 470 on, 2 changes at most
//     run       a train with the day on which it sets out: the query's day, the day before or the day after
//     ride      a run from the stop where one boards to the stop where one alights
//     label     what is known of a traveller on board, for whoever looks for the cheapest connection
#![tactic(auto)]

pub mod allowed;
pub mod clock;
pub mod edges;
pub mod label;
pub mod query;
pub mod ride;
pub mod whole;
