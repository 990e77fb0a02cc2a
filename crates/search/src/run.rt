// What is boarded.
use connection::ride::Shift;

// A train, by its row, that sets out on a day, as seen from the query's day.
#[derive(Clone, Copy)]
pub struct Run {
    pub train: usize,
    pub shift: Shift,
}

// What a traveller wants to catch at a station: what leaves there at the minute, from the stop `board` of its train.
#[derive(Clone, Copy)]
pub struct Onward {
    pub station: u16,
    pub minute: u16,
    pub board: u8,
}
