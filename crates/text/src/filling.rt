// The book's calls that a line makes, on tables that are lent for all lines.
//
// An entry cannot be let go of, so each of these takes what the text has filled so far, and gives on what comes of it.
ghost use Rattle.std.specs.Prelude.{◌≡◌};
ghost use Rattle.text.specs.Reading.{left, refused_at, finishing, stopping, same_train, taking, book_of, ending};

use crate::fault::{Cause, Fault, Misread};
use crate::stage::Stage;
use crate::stop_line::StopLine;
use book::lending::LentTables;
use book::refusal::{Refusal, Refused};
use book::rows::StopRow;
use book::state::{Book, Entry};

// The book refuses a call of the line with this number.
fn refused_at(number: usize, refused: Refused<Book>) -> Misread
    ensures { result ≡ refused_at number refused }
{
    let Refused { back, refusal } = refused;
    Misread {
        book: back,
        fault: Fault {
            cause: Cause::Book(refusal),
            line: number,
            column: 0,
        },
    }
}

// The train ends with this line.
fn finish_train(entry: Entry, tables: &mut LentTables, number: usize) -> Result<Stage, Misread>
    ensures outcome { left result tables.new.trains.now tables.new.stops.now ≡ finishing number entry tables.old.trains.now tables.old.stops.now }
    ensures same_train_table { tables.new.trains.ghost_name ≡ tables.old.trains.ghost_name }
    ensures same_stop_table { tables.new.stops.ghost_name ≡ tables.old.stops.ghost_name }
{
    match tables.finish(entry) {
        Ok(book) => Ok(Stage::Between(book)),
        Err(refused) => Err(refused_at(number, refused.abandoned())),
    }
}

// The stop of a line, and the train's end where it has no departure.
fn take_stop(
    entry: Entry,
    tables: &mut LentTables,
    row: StopRow,
    number: usize,
) -> Result<Stage, Misread>
    ensures outcome { left result tables.new.trains.now tables.new.stops.now ≡ stopping number row entry tables.old.trains.now tables.old.stops.now }
    ensures same_train_table { tables.new.trains.ghost_name ≡ tables.old.trains.ghost_name }
    ensures same_stop_table { tables.new.stops.ghost_name ≡ tables.old.stops.ghost_name }
{
    match tables.stop(entry, row.station, row.arrive, row.depart) {
        Ok(entry) if row.depart.is_some() => Ok(Stage::Inside(entry)),
        Ok(entry) => finish_train(entry, tables, number),
        Err(refused) => Err(refused_at(number, refused.abandoned())),
    }
}

// Whether the line is one of the train that is open.
fn is_of(line: &StopLine, entry: &Entry) -> bool
    ensures { result ≡ same_train entry.now line.now }
{
    line.number == entry.number() && line.code == entry.code() && line.features == entry.features()
}

impl Stage {
    // What comes of the line with this number.
    pub fn take(
        self,
        tables: &mut LentTables,
        line: StopLine,
        number: usize,
    ) -> Result<Stage, Misread>
        ensures outcome { left result tables.new.trains.now tables.new.stops.now ≡ taking number line self tables.old.trains.now tables.old.stops.now }
        ensures same_train_table { tables.new.trains.ghost_name ≡ tables.old.trains.ghost_name }
        ensures same_stop_table { tables.new.stops.ghost_name ≡ tables.old.stops.ghost_name }
    {
        match self {
            Stage::Between(book) => {
                match tables.begin(book, line.number, line.code, line.features) {
                    Ok(entry) => take_stop(entry, tables, line.stop, number),
                    Err(refused) => Err(refused_at(number, refused)),
                }
            }
            Stage::Inside(entry) if is_of(&line, &entry) => {
                take_stop(entry, tables, line.stop, number)
            }
            Stage::Inside(entry) => Err(Misread {
                book: entry.abandon(),
                fault: Fault {
                    cause: Cause::Differs,
                    line: number,
                    column: 1,
                },
            }),
        }
    }

    // The book with the trains that are finished; an open one is abandoned.
    pub fn into_book(self) -> Book
        ensures { result ≡ book_of self }
    {
        match self {
            Stage::Between(book) => book,
            Stage::Inside(entry) => entry.abandon(),
        }
    }

    // The text ends behind the line with this number.
    pub fn end(self, number: usize) -> Result<Book, Misread>
        ensures { result ≡ ending number self }
    {
        match self {
            Stage::Between(book) => Ok(book),
            Stage::Inside(entry) => Err(Misread {
                book: entry.abandon(),
                fault: Fault {
                    cause: Cause::Book(Refusal::Unfinished),
                    line: number,
                    column: 0,
                },
            }),
        }
    }
}
