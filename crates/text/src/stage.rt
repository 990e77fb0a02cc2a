// How far a text has filled the book.
use book::state::{Book, Entry};

pub enum Stage {
    // between two trains
    Between(Book),
    // inside a train
    Inside(Entry),
}
