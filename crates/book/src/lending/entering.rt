// A train is entered into lent tables: the calls are those of Book and Entry, and answer the same.
ghost use Rattle.std.specs.Prelude.{◌≡◌, Ok};
ghost use Rattle.book.specs.Answers.{ok_unless, begin_answer, row, stop_answer, stop_rows, finish_answer, finish_rows};
ghost use Rattle.book.specs.Histories.{Open, Closed, begun, stopped, finished, LeadsOn};
ghost use Rattle.book.specs.PlainList.{begins, stops as next_stop, finishes};
ghost use Rattle.book.specs.Refusals.{begin_refusal, stop_refusal, finish_refusal};

use crate::lending::LentTables;
use crate::refusal::{Refusal, Refused};
use crate::rows::{Departure, StopRow};
use crate::state::{Book, Entry};

impl LentTables<'_, '_> {
    fn may_begin(&mut self, book: &Book, number: u16) -> Result<(), Refusal>
        ensures answer { result ≡ ok_unless (begin_refusal book.now self.old.trains.now self.old.stops.now number) }
        ensures trains_unchanged { self.new.trains.now ≡ self.old.trains.now }
        ensures stops_unchanged { self.new.stops.now ≡ self.old.stops.now }
        ensures same_train_table { self.new.trains.ghost_name ≡ self.old.trains.ghost_name }
        ensures same_stop_table { self.new.stops.ghost_name ≡ self.old.stops.ghost_name }
    {
        self.check(book)?;
        let trains = &mut *self.trains;
        book.judge_begin(trains, number)
    }

    fn may_stop(&mut self, entry: &Entry, next: StopRow) -> Result<(), Refusal>
        ensures answer { result ≡ ok_unless (stop_refusal entry.now self.old.trains.now self.old.stops.now next) }
        ensures known { result ≡ Ok tt → self.new.book ≡ entry.now.book }
        ensures known_stops { result ≡ Ok tt → self.new.taken ≡ entry.now.taken }
        ensures trains_unchanged { self.new.trains.now ≡ self.old.trains.now }
        ensures stops_unchanged { self.new.stops.now ≡ self.old.stops.now }
        ensures same_train_table { self.new.trains.ghost_name ≡ self.old.trains.ghost_name }
        ensures same_stop_table { self.new.stops.ghost_name ≡ self.old.stops.ghost_name }
    {
        if !self.hold_entry(entry) {
            return Err(Refusal::Damaged);
        }
        let stops = &mut *self.stops;
        entry.judge_stop(stops, next)
    }

    fn may_finish(&mut self, entry: &Entry) -> Result<(), Refusal>
        ensures answer { result ≡ ok_unless (finish_refusal entry.now self.old.trains.now self.old.stops.now) }
        ensures known { result ≡ Ok tt → self.new.book ≡ entry.now.book }
        ensures known_stops { result ≡ Ok tt → self.new.taken ≡ entry.now.taken }
        ensures trains_unchanged { self.new.trains.now ≡ self.old.trains.now }
        ensures stops_unchanged { self.new.stops.now ≡ self.old.stops.now }
        ensures same_train_table { self.new.trains.ghost_name ≡ self.old.trains.ghost_name }
        ensures same_stop_table { self.new.stops.ghost_name ≡ self.old.stops.ghost_name }
    {
        if !self.hold_entry(entry) {
            return Err(Refusal::Damaged);
        }
        let stops = &mut *self.stops;
        entry.judge_finish(stops)
    }

    // Begins a train, as Book::begin does. Refused under 1 to 4, with the book as it was.
    pub fn begin(
        &mut self,
        book: Book,
        number: u16,
        code: u8,
        features: u16,
    ) -> Result<Entry, Refused<Book>>
        ensures answer { result ≡ begin_answer book self.old.trains.now self.old.stops.now number code features }
        ensures history { LeadsOn (Closed book) self.old.trains.now self.old.stops.now (begins number code features) (begun result) self.new.trains.now self.new.stops.now }
        ensures trains_unchanged { self.new.trains.now ≡ self.old.trains.now }
        ensures stops_unchanged { self.new.stops.now ≡ self.old.stops.now }
        ensures same_train_table { self.new.trains.ghost_name ≡ self.old.trains.ghost_name }
        ensures same_stop_table { self.new.stops.ghost_name ≡ self.old.stops.ghost_name }
    {
        match self.may_begin(&book, number) {
            Ok(()) => Ok(book.open(number, code, features)),
            Err(refusal) => Err(Refused {
                back: book,
                refusal,
            }),
        }
    }

    // Writes the train's next stop, as Entry::stop does. Refused under 1 and 5 to 10, with the entry as it was and no row
    // written.
    pub fn stop(
        &mut self,
        entry: Entry,
        station: u16,
        arrive: Option<u16>,
        depart: Option<Departure>,
    ) -> Result<Entry, Refused<Entry>>
        ensures answer { result ≡ stop_answer entry self.old.trains.now self.old.stops.now (row station arrive depart) }
        ensures rows { self.new.stops.now ≡ stop_rows entry self.old.trains.now self.old.stops.now (row station arrive depart) }
        ensures history { LeadsOn (Open entry) self.old.trains.now self.old.stops.now (next_stop (row station arrive depart)) (stopped result) self.new.trains.now self.new.stops.now }
        ensures trains_unchanged { self.new.trains.now ≡ self.old.trains.now }
        ensures same_train_table { self.new.trains.ghost_name ≡ self.old.trains.ghost_name }
        ensures same_stop_table { self.new.stops.ghost_name ≡ self.old.stops.ghost_name }
    {
        let next = StopRow {
            station,
            arrive,
            depart,
        };
        next.fits_types();
        match self.may_stop(&entry, next) {
            Ok(()) => {
                let stops = &mut *self.stops;
                let entry = entry.with_stop(stops, next);
                self.taken = entry.taken;
                Ok(entry)
            }
            Err(refusal) => Err(Refused {
                back: entry,
                refusal,
            }),
        }
    }

    // Writes the train's row and gives the book back, as Entry::finish does. Refused under 1 and 11, with the entry as it
    // was and no row written.
    pub fn finish(&mut self, entry: Entry) -> Result<Book, Refused<Entry>>
        ensures answer { result ≡ finish_answer entry self.old.trains.now self.old.stops.now }
        ensures rows { self.new.trains.now ≡ finish_rows entry self.old.trains.now self.old.stops.now }
        ensures history { LeadsOn (Open entry) self.old.trains.now self.old.stops.now finishes (finished result) self.new.trains.now self.new.stops.now }
        ensures stops_unchanged { self.new.stops.now ≡ self.old.stops.now }
        ensures same_train_table { self.new.trains.ghost_name ≡ self.old.trains.ghost_name }
        ensures same_stop_table { self.new.stops.ghost_name ≡ self.old.stops.ghost_name }
    {
        match self.may_finish(&entry) {
            Ok(()) => {
                let number = entry.number;
                let trains = &mut *self.trains;
                let book = entry.into_book(trains);
                // no book holds a train of number 0; begin lets none pass, but an entry does not tell
                if number != 0 {
                    self.book = Book {
                        trains: book.trains,
                        stops: book.stops,
                    };
                    self.taken = 0;
                }
                Ok(book)
            }
            Err(refusal) => Err(Refused {
                back: entry,
                refusal,
            }),
        }
    }
}
