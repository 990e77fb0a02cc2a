// Whether the rows of the two tables hold what a book or an entry says.
ghost use Rattle.std.specs.Prelude.{◌≡◌, ◌≤◌, ◌&&◌, length};
ghost use Rattle.book.specs.Limits.{most_stops};
ghost use Rattle.book.specs.Room.{room};
ghost use Rattle.book.specs.Trains.{gapless, all_sound, trains_in, holds, entry_holds};

use crate::limits::{MOST_STOPS, MOST_STOPS_OF_TRAIN, MOST_TRAINS};
use crate::rows::{StopRow, TrainRow};
use crate::rules::{are_in_order, is_sound};
use crate::state::{Book, Entry};

// Whether the trains of `rows` lie one after another over all the `used` stops, and break no rule.
fn are_sound(rows: &[TrainRow], used: u16, stops: &[StopRow]) -> bool
    requires most { used ≤ most_stops }
    requires fit { used ≤ length stops.now }
    ensures { result ≡ (gapless 0 used rows.now && all_sound (trains_in rows.now stops.now)) }
{
    let mut at = 0;
    // as plain as a `try_fold`, which would hand on where the next train begins
    for row in rows {
        let end = at + row.count as u16;
        if row.first != at
            || end > used
            || !is_sound(row.number, &stops[at as usize..end as usize])
        {
            return false;
        }
        at = end;
    }
    at == used
}

// Whether the tables hold the book's trains and stops.
pub fn hold(book: &Book, trains: &[TrainRow], stops: &[StopRow]) -> bool
    ensures { result ≡ holds book.now.trains book.now.stops trains.now stops.now }
{
    if book.trains > MOST_TRAINS || book.trains as usize > trains.len() {
        return false;
    }
    if book.stops > MOST_STOPS || book.stops as usize > stops.len() {
        return false;
    }
    are_sound(&trains[..book.trains as usize], book.stops, stops)
}

// Whether there is a row for the entry's train, and the entry's own stops fit the limits and their table.
pub fn have_room(entry: &Entry, trains: &[TrainRow], stops: &[StopRow]) -> bool
    ensures { result ≡ room entry.now (length trains.now) (length stops.now) }
{
    let book = &entry.book;
    if book.trains >= MOST_TRAINS || book.trains as usize >= trains.len() {
        return false;
    }
    let end = book.stops as usize + entry.taken as usize;
    end <= MOST_STOPS as usize && end <= stops.len() && entry.taken as usize <= MOST_STOPS_OF_TRAIN
}

// Whether the tables hold the entry's book and the entry's own stops, and have a row for its train.
pub fn hold_entry(entry: &Entry, trains: &[TrainRow], stops: &[StopRow]) -> bool
    ensures { result ≡ entry_holds entry.now trains.now stops.now }
{
    if !hold(&entry.book, trains, stops) {
        return false;
    }
    if !have_room(entry, trains, stops) {
        return false;
    }
    are_in_order(entry.row().stops(stops))
}
