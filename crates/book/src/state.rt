// A book, and an entry into it.
ghost use Rattle.std.specs.Prelude.{◌≡◌, true, List, [], length};
ghost use Rattle.book.specs.Answers.{new_book, finished_row};
ghost use Rattle.book.specs.Histories.{History, Closed};
ghost use Rattle.book.specs.declared.rows.StopRow.{StopRow};
ghost use Rattle.book.specs.declared.rows.TrainRow.{TrainRow};

use crate::rows::TrainRow;

// How many rows of the two tables are in use.
#[derive(Drop)]
pub struct Book {
    pub(crate) trains: u16,
    pub(crate) stops: u16,
}

impl Book {
    // An empty book, over any tables.
    pub const fn new() -> Book
        ensures answer { result ≡ new_book }
        ensures history { (ts : List TrainRow) (ss : List StopRow) → History (length ts) (length ss) [] (Closed result) ts ss }
    {
        Book {
            trains: 0,
            stops: 0,
        }
    }
}

// A train that is being filled in. It holds the book that began it, and has `taken` stops behind the book's.
// It cannot be forgotten: it may be let go only once it is spent, which `finish` and `abandon` do.
pub struct Entry {
    pub(crate) book: Book,
    pub(crate) number: u16,
    pub(crate) code: u8,
    pub(crate) features: u16,
    pub(crate) taken: u8,
    // A flag, so that it takes a proof to let an entry go: the gate shows that wrong code which forgets one is not proved.
    pub(crate) spent: bool,
}

impl Entry {
    // The train's row, with the stops that it has so far.
    pub(crate) fn row(&self) -> TrainRow
        ensures { result ≡ finished_row self.now }
    {
        TrainRow {
            number: self.number,
            code: self.code,
            features: self.features,
            first: self.book.stops,
            count: self.taken,
        }
    }
}

impl Drop for Entry {
    fn drop(self)
        requires { self.spent ≡ true }
    {
        let Entry {
            book: _,
            number: _,
            code: _,
            features: _,
            taken: _,
            spent: _,
        } = self;
    }
}
