// Tables that the tests lend, and what comes of reading into them.
use book::rows::{StopRow, TrainRow};
use book::state::Book;
use text::fault::{Fault, Misread};
use text::reading::read;

pub const NAMES: &[u8] = b"train,code,features,station,arrive,depart,fare\n";

// Three trains: 11 by way of three stations, 12 beside it, and 13 on from where they end.
pub const SMALL: &[u8] = b"train,code,features,station,arrive,depart,fare
11,127,1,1,,08:00,300
11,127,1,2,08:30,08:35,200
11,127,1,3,09:10,,
12,127,0,2,,08:40,100
12,127,0,3,09:00,,
13,31,1,3,,09:10,250
13,31,1,4,09:50,,
";

// A fault's number, line, column and layer.
#[derive(Clone, Copy, PartialEq, Eq, Debug)]
pub struct Place {
    pub number: u8,
    pub line: usize,
    pub column: usize,
    pub layer: u8,
}

pub fn at(number: u8, line: usize, column: usize, layer: u8) -> Place {
    Place {
        number,
        line,
        column,
        layer,
    }
}

fn place_of(fault: Fault) -> Place {
    Place {
        number: fault.cause.number(),
        line: fault.line,
        column: fault.column,
        layer: fault.cause.layer().number(),
    }
}

// The book that is left, and where the text is broken, if it is.
pub fn after(
    book: Book,
    trains: &mut [TrainRow],
    stops: &mut [StopRow],
    text: &[u8],
) -> (Book, Option<Place>) {
    match read(book, trains, stops, text) {
        Ok(book) => (book, None),
        Err(Misread { book, fault }) => (book, Some(place_of(fault))),
    }
}

// Where the text is broken, if it is, for an empty book over these tables.
pub fn fault_in(trains: &mut [TrainRow], stops: &mut [StopRow], text: &[u8]) -> Option<Place> {
    let (_, fault) = after(Book::new(), trains, stops, text);
    fault
}
