// The numbers that bound stations, times, trains and the book.
pub const LAST_STATION: u16 = 1023;

// Times count from midnight of the day on which a train sets out, and it may run through the next.
pub const LAST_MINUTE: u16 = 2879;

pub const MOST_STOPS_OF_TRAIN: usize = 64;

pub const MOST_TRAINS: u16 = 512;

pub const MOST_STOPS: u16 = 4096;
