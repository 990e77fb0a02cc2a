// How long the text of a book is, and of each part of it.
ghost use Rattle.std.specs.Prelude.{◌≡◌, ◌≤◌, IfSome, IsTrue, decimal, flat_map, length, nat_le};
ghost use Rattle.book.specs.Trains.{train_at, trains_in};
ghost use Rattle.text.specs.Measured.{LeftBehind, LinesTyped};
ghost use Rattle.text.specs.Puts.{departure_and_end};
ghost use Rattle.text.specs.Written.{Typed, AllTyped, clock_or_blank, line_of, lines_of, text_of};

use crate::names::NAMES;
use crate::stop_line::StopLine;
use book::rows::{Departure, StopRow, TrainRow};

fn number_length(n: u16) -> usize
    ensures length { result ≡ length (decimal n) }
    ensures short { result ≤ 5 }
{
    match n {
        0..=9 => 1,
        10..=99 => 2,
        100..=999 => 3,
        1000..=9999 => 4,
        _ => 5,
    }
}

fn time_length(minute: Option<u16>) -> usize
    ensures length { result ≡ length (clock_or_blank minute) }
    ensures short { result ≤ 5 }
{
    if minute.is_some() { 5 } else { 0 }
}

// The length of the last two fields and of the end of the line.
fn departure_length(depart: Option<Departure>) -> usize
    ensures length { result ≡ length (departure_and_end depart) }
    ensures short { result ≤ 12 }
{
    let Some(departure) = depart else {
        return 2;
    };
    time_length(Some(departure.minute)) + 1 + number_length(departure.fare) + 1
}

fn line_length(line: StopLine) -> usize
    ensures length { result ≡ length (line_of line) }
    ensures typed { Typed line }
{
    let number = number_length(line.number);
    let code = number_length(line.code as u16);
    let features = number_length(line.features);
    let station = number_length(line.stop.station);
    let arrive = time_length(line.stop.arrive);
    let depart = departure_length(line.stop.depart);
    number + 1 + code + 1 + features + 1 + station + 1 + arrive + 1 + depart
}

// What is left of the room behind the lines of a train, if they fit.
fn room_behind_train(room: usize, row: &TrainRow, stops: &[StopRow]) -> Option<usize>
    ensures room { LeftBehind room (length (lines_of (train_at stops.now row.now))) result }
    ensures typed { IfSome result (λ _. LinesTyped (train_at stops.now row.now)) }
{
    let mut left = room;
    for stop in row.stops(stops) {
        left = left.checked_sub(line_length(StopLine::of(row, *stop)))?;
    }
    Some(left)
}

// What is left of the room behind the lines of all trains, if they fit.
fn room_behind(room: usize, rows: &[TrainRow], stops: &[StopRow]) -> Option<usize>
    ensures room { LeftBehind room (length (flat_map lines_of (trains_in rows.now stops.now))) result }
    ensures typed { IfSome result (λ _. AllTyped (trains_in rows.now stops.now)) }
{
    let mut left = room;
    for row in rows {
        left = room_behind_train(left, row, stops)?;
    }
    Some(left)
}

// Whether the text of all trains fits into the room.
pub fn text_fits(room: usize, rows: &[TrainRow], stops: &[StopRow]) -> bool
    ensures fits { result ≡ nat_le (length (text_of (trains_in rows.now stops.now))) room }
    ensures typed { IsTrue result → AllTyped (trains_in rows.now stops.now) }
{
    let Some(left) = room.checked_sub(NAMES.len() + 1) else {
        return false;
    };
    room_behind(left, rows, stops).is_some()
}
