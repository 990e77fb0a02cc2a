// Both tables, lent for many calls on one book: what was looked over once is not looked over again.
//
//     let mut tables = LentTables::over(&mut trains, &mut stops);
//     let entry = tables.begin(book, 11, 127, 1)?;              // looks all rows over, as Book::begin does
//     let entry = tables.stop(entry, 1, None, leave)?;          // looks at this stop and the one before
//     let entry = tables.stop(entry, 2, Some(510), None)?;
//     let book = tables.finish(entry)?;
//     let entry = tables.begin(book, 12, 127, 0)?;              // looks for the number
//
// As long as the tables are lent, nothing else can write to them. So what was found of their rows holds at the next call
// too, if that is on the book or entry that the last one gave. Any other is looked over as ever.
ghost use Rattle.std.specs.Prelude.{◌≡◌, true, take, drop, None};
ghost use Rattle.book.specs.Answers.{check_answer};
ghost use Rattle.book.specs.Histories.{Closed, LeadsOn};
ghost use Rattle.book.specs.PlainList.{reads};
ghost use Rattle.book.specs.Stops.{in_order};
ghost use Rattle.book.specs.Trains.{holds, entry_holds};

use crate::refusal::Refusal;
use crate::rows::{StopRow, TrainRow};
use crate::rules::are_in_order;
use crate::state::{Book, Entry};
use crate::tables::{have_room, hold};

mod entering;

// Each table has a lifetime of its own: were there one for both, a caller would not learn what they hold when they come back.
#[derive(Drop)]
pub struct LentTables<'t, 's> {
    trains: &'t mut [TrainRow],
    stops: &'s mut [StopRow],
    // the tables are known to hold what this book says ..
    book: Book,
    // .. and so many stops behind the book's are known to be in order, as those of an entry
    taken: u8,
    ghost held: { holds book.trains book.stops trains.now stops.now ≡ true },
    ghost ordered: { in_order None (take taken (drop book.stops stops.now)) ≡ true },
}

impl<'t, 's> LentTables<'t, 's> {
    // Lends the tables. No row is looked over yet.
    pub fn over(trains: &'t mut [TrainRow], stops: &'s mut [StopRow]) -> LentTables<'t, 's>
        ensures trains_unchanged { result.trains.now ≡ trains.old }
        ensures stops_unchanged { result.stops.now ≡ stops.old }
        ensures same_train_table { result.trains.ghost_name ≡ trains.entry.ghost_name }
        ensures same_stop_table { result.stops.ghost_name ≡ stops.entry.ghost_name }
    {
        LentTables {
            trains,
            stops,
            book: Book::new(),
            taken: 0,
        }
    }
}

impl LentTables<'_, '_> {
    // Whether the tables hold the book's trains and stops.
    fn hold(&mut self, book: &Book) -> bool
        ensures answer { result ≡ holds book.now.trains book.now.stops self.old.trains.now self.old.stops.now }
        ensures known { result ≡ true → self.new.book ≡ book.now }
        ensures trains_unchanged { self.new.trains.now ≡ self.old.trains.now }
        ensures stops_unchanged { self.new.stops.now ≡ self.old.stops.now }
        ensures same_train_table { self.new.trains.ghost_name ≡ self.old.trains.ghost_name }
        ensures same_stop_table { self.new.stops.ghost_name ≡ self.old.stops.ghost_name }
    {
        if book.trains == self.book.trains && book.stops == self.book.stops {
            return true;
        }
        let trains = &mut *self.trains;
        let stops = &mut *self.stops;
        if !hold(book, trains, stops) {
            return false;
        }
        self.book = Book {
            trains: book.trains,
            stops: book.stops,
        };
        self.taken = 0;
        true
    }

    // Whether the tables hold the entry's book and the entry's own stops, and have a row for its train.
    fn hold_entry(&mut self, entry: &Entry) -> bool
        ensures answer { result ≡ entry_holds entry.now self.old.trains.now self.old.stops.now }
        ensures known { result ≡ true → self.new.book ≡ entry.now.book }
        ensures known_stops { result ≡ true → self.new.taken ≡ entry.now.taken }
        ensures trains_unchanged { self.new.trains.now ≡ self.old.trains.now }
        ensures stops_unchanged { self.new.stops.now ≡ self.old.stops.now }
        ensures same_train_table { self.new.trains.ghost_name ≡ self.old.trains.ghost_name }
        ensures same_stop_table { self.new.stops.ghost_name ≡ self.old.stops.ghost_name }
    {
        if !self.hold(&entry.book) {
            return false;
        }
        let trains = &mut *self.trains;
        let stops = &mut *self.stops;
        if !have_room(entry, trains, stops) {
            return false;
        }
        if entry.taken == self.taken {
            return true;
        }
        if !are_in_order(entry.row().stops(stops)) {
            return false;
        }
        self.taken = entry.taken;
        true
    }

    // Looks the tables over, unless they are known to hold the book; refused under 1 where they do not hold what it says.
    pub fn check(&mut self, book: &Book) -> Result<(), Refusal>
        ensures answer { result ≡ check_answer book.now self.old.trains.now self.old.stops.now }
        ensures history { LeadsOn (Closed book.now) self.old.trains.now self.old.stops.now reads (Closed book.now) self.new.trains.now self.new.stops.now }
        ensures trains_unchanged { self.new.trains.now ≡ self.old.trains.now }
        ensures stops_unchanged { self.new.stops.now ≡ self.old.stops.now }
        ensures same_train_table { self.new.trains.ghost_name ≡ self.old.trains.ghost_name }
        ensures same_stop_table { self.new.stops.ghost_name ≡ self.old.stops.ghost_name }
    {
        if !self.hold(book) {
            return Err(Refusal::Damaged);
        }
        Ok(())
    }
}
