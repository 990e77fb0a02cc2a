// A text is read into a book.
ghost use Rattle.std.specs.Prelude.{◌≡◌, false, MatchOption};
ghost use Rattle.text.specs.Faults.{wrong_names, misread};
ghost use Rattle.text.specs.Lines.{lines, line_with};
ghost use Rattle.text.specs.Reading.{left, after_saying, reading, is_names, read};
ghost use Rattle.text.specs.Returns.{ComesBack, BringsItsTrains, ReadsOn};
ghost use Rattle.text.specs.Saying.{says};
ghost use Rattle.text.specs.declared.stage.Stage.TheVariants.{Between};

use crate::fault::{Cause, Fault, Misread};
use crate::names::NAMES;
use crate::reader::{Lines, Reader};
use crate::saying::said;
use crate::stage::Stage;
use book::histories::every_history_holds;
use book::lending::LentTables;
use book::rows::{StopRow, TrainRow};
use book::state::Book;

// Whether the text begins with the line of names.
fn is_names(first: Option<Reader>) -> bool
    ensures { MatchOption first.entry (result ≡ false) (λ line. result ≡ is_names (line_with line.has_feed line.line.now)) }
{
    match first {
        Some(line) => line.has_feed() && line.line() == NAMES,
        None => false,
    }
}

fn wrong_names(book: Book) -> Misread
    ensures { result ≡ misread book wrong_names }
{
    Misread {
        book,
        fault: Fault {
            cause: Cause::Names,
            line: 1,
            column: 0,
        },
    }
}

// What comes of a line.
fn read_line(stage: Stage, reader: Reader, tables: &mut LentTables) -> Result<Stage, Misread>
    requires whole { reader.left.now ≡ reader.line.now }
    ensures outcome { left result tables.new.trains.now tables.new.stops.now ≡ after_saying reader.entry.number (says reader.entry.number (line_with reader.entry.has_feed reader.entry.line.now)) stage tables.old.trains.now tables.old.stops.now }
    ensures same_train_table { tables.new.trains.ghost_name ≡ tables.old.trains.ghost_name }
    ensures same_stop_table { tables.new.stops.ghost_name ≡ tables.old.stops.ghost_name }
{
    let number = reader.number();
    match said(reader) {
        Ok(line) => stage.take(tables, line, number),
        Err(fault) => Err(Misread {
            book: stage.into_book(),
            fault,
        }),
    }
}

// The lines that are left, the first of which begins a train.
fn read_lines(book: Book, mut text: Lines, tables: &mut LentTables) -> Result<Book, Misread>
    ensures outcome { left result tables.new.trains.now tables.new.stops.now ≡ reading text.entry.count (lines text.entry.left.now) (Between book) tables.old.trains.now tables.old.stops.now }
    ensures same_train_table { tables.new.trains.ghost_name ≡ tables.old.trains.ghost_name }
    ensures same_stop_table { tables.new.stops.ghost_name ≡ tables.old.stops.ghost_name }
{
    let mut stage = Stage::Between(book);
    while let Some(reader) = text.next_line() {
        stage = read_line(stage, reader, tables)?;
    }
    stage.end(text.count())
}

// The whole text, the tables first.
fn read_lent(book: Book, tables: &mut LentTables, text: &[u8]) -> Result<Book, Misread>
    ensures outcome { left result tables.new.trains.now tables.new.stops.now ≡ read text.now book tables.old.trains.now tables.old.stops.now }
    ensures same_train_table { tables.new.trains.ghost_name ≡ tables.old.trains.ghost_name }
    ensures same_stop_table { tables.new.stops.ghost_name ≡ tables.old.stops.ghost_name }
{
    if let Err(refusal) = tables.check(&book) {
        return Err(Misread {
            book,
            fault: Fault {
                cause: Cause::Book(refusal),
                line: 0,
                column: 0,
            },
        });
    }
    let mut lines = Lines::new(text);
    if !is_names(lines.next_line()) {
        return Err(wrong_names(book));
    }
    read_lines(book, lines, tables)
}

// The same, into the tables as the caller has them.
fn read_text(
    book: Book,
    trains: &mut [TrainRow],
    stops: &mut [StopRow],
    text: &[u8],
) -> Result<Book, Misread>
    ensures { left result trains.new stops.new ≡ read text.now book trains.old stops.old }
{
    let mut tables = LentTables::over(trains, stops);
    read_lent(book, &mut tables, text)
}

// Adds the trains of the text to the book. On a fault, the trains that were finished ahead of it are in the book, and an
// open one is abandoned.
pub fn read(
    book: Book,
    trains: &mut [TrainRow],
    stops: &mut [StopRow],
    text: &[u8],
) -> Result<Book, Misread>
    ensures answer { result ≡ (read text.now book trains.old stops.old).answer }
    ensures trains { trains.new ≡ (read text.now book trains.old stops.old).trains }
    ensures stops { stops.new ≡ (read text.now book trains.old stops.old).stops }
    ensures comes_back { ComesBack text.now book trains.old stops.old result trains.new stops.new }
    ensures brings { BringsItsTrains text.now book trains.old stops.old result trains.new stops.new }
    ensures history { ReadsOn text.now book trains.old stops.old result trains.new stops.new }
{
    // what an accepted text brings follows from what holds after every history
    every_history_holds();
    read_text(book, trains, stops, text)
}
