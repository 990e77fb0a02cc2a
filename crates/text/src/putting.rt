// Values put into a lent buffer, each from the place `at` on; what is answered is the place behind it.
ghost use Rattle.std.specs.Prelude.{◌≡◌, ℕ, ◌+◌, ◌<◌, ◌≤◌, [], ◌∷◌, decimal, length};
ghost use Rattle.book.specs.Trains.{train_at, trains_in};
ghost use Rattle.text.specs.Puts.{Put, and_comma, departure_and_end};
ghost use Rattle.text.specs.Times.{clock};
ghost use Rattle.text.specs.Written.{clock_or_blank, line_of, lines_of, text_of};

use crate::names::NAMES;
use crate::stop_line::StopLine;
use book::rows::{Departure, StopRow, TrainRow};

fn put_byte(buffer: &mut [u8], at: usize, byte: u8) -> usize
    requires { at < length buffer.old }
    ensures { Put (byte ∷ []) at buffer.old result buffer.new }
{
    buffer[at] = byte;
    at + 1
}

fn put_bytes(buffer: &mut [u8], at: usize, bytes: &[u8]) -> usize
    requires { at + length bytes.now ≤ length buffer.old }
    ensures { Put bytes.now at buffer.old result buffer.new }
{
    let end = at + bytes.len();
    buffer[at..end].copy_from_slice(bytes);
    end
}

fn put_number(buffer: &mut [u8], at: usize, n: u16) -> usize
    requires { at + length (decimal n) ≤ length buffer.old }
    ensures { Put (decimal n) at buffer.old result buffer.new }
{
    if n < 10 {
        return put_byte(buffer, at, b'0' + n as u8);
    }
    let last = put_number(buffer, at, n / 10);
    put_byte(buffer, last, b'0' + (n % 10) as u8)
}

// The minute as it is written: two digits, a colon and two digits.
fn clock(minute: u16) -> [u8; 5]
    ensures { result ≡ clock minute }
{
    let hours = minute / 60;
    let rest = minute % 60;
    [
        b'0' + (hours / 10) as u8,
        b'0' + (hours % 10) as u8,
        b':',
        b'0' + (rest / 10) as u8,
        b'0' + (rest % 10) as u8,
    ]
}

// A number and a comma.
fn put_number_field(buffer: &mut [u8], at: usize, n: u16) -> usize
    requires { at + length (and_comma (decimal n)) ≤ length buffer.old }
    ensures { Put (and_comma (decimal n)) at buffer.old result buffer.new }
{
    let end = put_number(buffer, at, n);
    put_byte(buffer, end, b',')
}

// A time, or nothing, and a comma.
fn put_time_field(buffer: &mut [u8], at: usize, minute: Option<u16>) -> usize
    requires { at + length (and_comma (clock_or_blank minute)) ≤ length buffer.old }
    ensures { Put (and_comma (clock_or_blank minute)) at buffer.old result buffer.new }
{
    let Some(minute) = minute else {
        return put_byte(buffer, at, b',');
    };
    let end = put_bytes(buffer, at, &clock(minute));
    put_byte(buffer, end, b',')
}

// When the train leaves and its fare, or neither, and the end of the line.
fn put_departure(buffer: &mut [u8], at: usize, depart: Option<Departure>) -> usize
    requires { at + length (departure_and_end depart) ≤ length buffer.old }
    ensures { Put (departure_and_end depart) at buffer.old result buffer.new }
{
    let Some(departure) = depart else {
        return put_bytes(buffer, at, b",\n");
    };
    let at = put_time_field(buffer, at, Some(departure.minute));
    let end = put_number(buffer, at, departure.fare);
    put_byte(buffer, end, b'\n')
}

#[tactic(auto, using(crate::proofs::LineParts::length_line))]
fn put_line(buffer: &mut [u8], at: usize, line: StopLine) -> usize
    requires { at + length (line_of line) ≤ length buffer.old }
    ensures { Put (line_of line) at buffer.old result buffer.new }
{
    let code = put_number_field(buffer, at, line.number);
    let features = put_number_field(buffer, code, line.code as u16);
    let station = put_number_field(buffer, features, line.features);
    let arrive = put_number_field(buffer, station, line.stop.station);
    let depart = put_time_field(buffer, arrive, line.stop.arrive);
    put_departure(buffer, depart, line.stop.depart)
}

// The lines of a train.
fn put_train(buffer: &mut [u8], at: usize, row: &TrainRow, stops: &[StopRow]) -> usize
    requires { at + length (lines_of (train_at stops.now row.now)) ≤ length buffer.old }
    ensures { Put (lines_of (train_at stops.now row.now)) at buffer.old result buffer.new }
{
    let mut end = at;
    for stop in row.stops(stops) {
        end = put_line(buffer, end, StopLine::of(row, *stop));
    }
    end
}

// The line of names and the lines of all trains.
pub fn put_text(buffer: &mut [u8], rows: &[TrainRow], stops: &[StopRow]) -> usize
    requires { length (text_of (trains_in rows.now stops.now)) ≤ length buffer.old }
    ensures { Put (text_of (trains_in rows.now stops.now)) 0 buffer.old result buffer.new }
{
    let names = put_bytes(buffer, 0, NAMES);
    let mut end = put_byte(buffer, names, b'\n');
    for row in rows {
        end = put_train(buffer, end, row, stops);
    }
    end
}
