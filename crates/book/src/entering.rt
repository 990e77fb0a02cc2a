// A train is entered: begun, filled in stop by stop, and finished or abandoned.
//
// A refused call gives back what it took, which `?` would let go of: so each call matches on whether it may be made.
ghost use Rattle.std.specs.Prelude.{◌≡◌, ◌+◌, ◌<◌, ◌≤◌, false, List, length, slice_set};
ghost use Rattle.book.specs.Answers.{begin_answer, row, longer, stop_answer, stop_rows, finished_row, finish_answer, finish_rows, abandon_answer, abandoned};
ghost use Rattle.book.specs.Histories.{Open, Closed, begun, stopped, finished, LeadsOn};
ghost use Rattle.book.specs.Limits.{most_stops_of_train, most_trains, most_stops};
ghost use Rattle.book.specs.PlainList.{begins, stops as next_stop, finishes, abandons};
ghost use Rattle.book.specs.declared.rows.StopRow.{StopRow};
ghost use Rattle.book.specs.declared.rows.TrainRow.{TrainRow};

use crate::refusal::Refused;
use crate::rows::{Departure, StopRow, TrainRow};
use crate::state::{Book, Entry};
use std::mem;

impl Book {
    // Begins a train with this number, calendar code and features. Refused under 1 to 4, with the book as it was.
    pub fn begin(
        self,
        trains: &[TrainRow],
        stops: &[StopRow],
        number: u16,
        code: u8,
        features: u16,
    ) -> Result<Entry, Refused<Book>>
        ensures answer { result ≡ begin_answer self trains.now stops.now number code features }
        ensures history { LeadsOn (Closed self) trains.now stops.now (begins number code features) (begun result) trains.now stops.now }
    {
        match self.may_begin(trains, stops, number) {
            Ok(()) => Ok(self.open(number, code, features)),
            Err(refusal) => Err(Refused {
                back: self,
                refusal,
            }),
        }
    }

    // An entry with no stop yet.
    pub(crate) fn open(self, number: u16, code: u8, features: u16) -> Entry
        ensures { result ≡ record { book = self; number = number; code = code; features = features; taken = 0; spent = false } }
    {
        Entry {
            book: self,
            number,
            code,
            features,
            taken: 0,
            spent: false,
        }
    }
}

impl Entry {
    // Writes the train's next stop. Refused under 1 and 5 to 10, with the entry as it was and no row written.
    pub fn stop(
        self,
        trains: &[TrainRow],
        stops: &mut [StopRow],
        station: u16,
        arrive: Option<u16>,
        depart: Option<Departure>,
    ) -> Result<Entry, Refused<Entry>>
        ensures answer { result ≡ stop_answer self trains.now stops.old (row station arrive depart) }
        ensures rows { stops.new ≡ stop_rows self trains.now stops.old (row station arrive depart) }
        ensures history { LeadsOn (Open self) trains.now stops.old (next_stop (row station arrive depart)) (stopped result) trains.now stops.new }
    {
        let next = StopRow {
            station,
            arrive,
            depart,
        };
        next.fits_types();
        match self.may_stop(trains, stops, next) {
            Ok(()) => Ok(self.with_stop(stops, next)),
            Err(refusal) => Err(Refused {
                back: self,
                refusal,
            }),
        }
    }

    // Writes the train's row and gives the book back with the train at its end. Refused under 1 and 11, with the entry
    // as it was and no row written.
    pub fn finish(self, trains: &mut [TrainRow], stops: &[StopRow]) -> Result<Book, Refused<Entry>>
        ensures answer { result ≡ finish_answer self trains.old stops.now }
        ensures rows { trains.new ≡ finish_rows self trains.old stops.now }
        ensures history { LeadsOn (Open self) trains.old stops.now finishes (finished result) trains.new stops.now }
    {
        match self.may_finish(trains, stops) {
            Ok(()) => Ok(self.into_book(trains)),
            Err(refusal) => Err(Refused {
                back: self,
                refusal,
            }),
        }
    }

    // Gives back the book that began the entry, and lets the entry go. Never refused.
    pub fn abandon(mut self) -> Book
        ensures answer { result ≡ abandon_answer self }
        ensures history { (ts : List TrainRow) (ss : List StopRow) → LeadsOn (Open self) ts ss abandons (Closed result) ts ss }
    {
        self.spent = true;
        mem::replace(&mut self.book, Book::new())
    }

    // The entry with one stop more, which is written behind those that it has.
    pub(crate) fn with_stop(mut self, stops: &mut [StopRow], next: StopRow) -> Entry
        requires few { self.taken < most_stops_of_train }
        requires fit { self.book.stops + self.taken < length stops.old }
        ensures entry { result ≡ longer self }
        ensures rows { stops.new ≡ slice_set stops.old (self.book.stops + self.taken) next }
    {
        stops[self.book.stops as usize + self.taken as usize] = next;
        self.taken += 1;
        self
    }

    // The book with the entry's train, whose row is written behind those of the book.
    pub(crate) fn into_book(self, trains: &mut [TrainRow]) -> Book
        requires few { self.book.trains < most_trains }
        requires fit { self.book.trains < length trains.old }
        requires few_stops { self.book.stops + self.taken ≤ most_stops }
        ensures book { result ≡ record { trains = self.book.trains + 1; stops = self.book.stops + self.taken } }
        ensures rows { trains.new ≡ slice_set trains.old self.book.trains (finished_row self) }
    {
        let row = self.row();
        let book = self.abandon();
        trains[book.trains as usize] = row;
        Book {
            trains: book.trains + 1,
            stops: book.stops + row.count as u16,
        }
    }
}

impl Refused<Entry> {
    // The same refusal, with the entry abandoned.
    pub fn abandoned(self) -> Refused<Book>
        ensures { result ≡ abandoned self }
    {
        let Refused { back, refusal } = self;
        Refused {
            back: back.abandon(),
            refusal,
        }
    }
}
