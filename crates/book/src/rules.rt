// The rules of a train's stops, one stop after another. `before` is the stop before, if there is one.
ghost use Rattle.std.specs.Prelude.{◌≡◌, Some, None};
ghost use Rattle.book.specs.Answers.{ok_unless};
ghost use Rattle.book.specs.Stops.{ended, same_station, wrong_times, late, leaves, left_at, before_it, not_after, bad_time, stop_fault, in_order, last_of, sound};

use crate::limits::{LAST_MINUTE, LAST_STATION, MOST_STOPS_OF_TRAIN};
use crate::reasons::refused_if;
use crate::refusal::Refusal;
use crate::rows::{Departure, StopRow};

// Whether the train has come to its last stop.
pub fn has_ended(before: Option<StopRow>) -> bool
    ensures { result ≡ ended before }
{
    before.is_some_and(|stop| stop.depart.is_none())
}

fn is_at_station_of(before: Option<StopRow>, stop: StopRow) -> bool
    ensures { result ≡ same_station before stop }
{
    before.is_some_and(|earlier| earlier.station == stop.station)
}

// A first stop has a departure and no arrival, a later one has an arrival.
fn has_wrong_times(before: Option<StopRow>, stop: StopRow) -> bool
    ensures { result ≡ wrong_times before stop }
{
    if before.is_some() {
        stop.arrive.is_none()
    } else {
        stop.arrive.is_some() || stop.depart.is_none()
    }
}

fn is_late(minute: Option<u16>) -> bool
    ensures { result ≡ late minute }
{
    minute.is_some_and(|m| m > LAST_MINUTE)
}

fn leaves(departure: Option<Departure>) -> Option<u16>
    ensures { result ≡ leaves departure }
{
    departure.map(|d| d.minute)
}

fn left_at(before: Option<StopRow>) -> Option<u16>
    ensures { result ≡ left_at before }
{
    before.and_then(|stop| leaves(stop.depart))
}

fn has_bad_time(before: Option<StopRow>, stop: StopRow) -> bool
    ensures { result ≡ bad_time before stop }
{
    let leave = leaves(stop.depart);
    is_late(stop.arrive)
        || is_late(leave)
        || stop
            .arrive
            .zip(leave)
            .is_some_and(|(arrive, leave)| leave < arrive)
        || left_at(before)
            .zip(stop.arrive)
            .is_some_and(|(left, arrive)| arrive <= left)
}

// Whether the stop may follow the stop before it; else what is wrong with it.
pub fn may_follow(before: Option<StopRow>, stop: StopRow) -> Result<(), Refusal>
    ensures { result ≡ ok_unless (stop_fault before stop) }
{
    // each row that a call looks over comes through here, and a list would make all five tests of it
    refused_if(has_ended(before), Refusal::PastLast)?;
    refused_if(stop.station > LAST_STATION, Refusal::NoStation)?;
    refused_if(is_at_station_of(before, stop), Refusal::SameStation)?;
    refused_if(has_wrong_times(before, stop), Refusal::WrongTimes)?;
    refused_if(has_bad_time(before, stop), Refusal::BadTime)
}

// Whether each stop may follow the one before it.
pub fn are_in_order(stops: &[StopRow]) -> bool
    ensures { result ≡ in_order None stops.now }
{
    let mut before = None;
    // as plain as a `try_fold`, which would hand the stop before from one to the next
    for stop in stops {
        if may_follow(before, *stop).is_err() {
            return false;
        }
        before = Some(*stop);
    }
    true
}

pub fn last_of(stops: &[StopRow]) -> Option<StopRow>
    ensures { result ≡ last_of None stops.now }
{
    stops.last().copied()
}

// Whether a train with this number and these stops breaks no rule.
pub fn is_sound(number: u16, stops: &[StopRow]) -> bool
    ensures { result ≡ sound number stops.now }
{
    number != 0
        && stops.len() <= MOST_STOPS_OF_TRAIN
        && are_in_order(stops)
        && has_ended(last_of(stops))
}
