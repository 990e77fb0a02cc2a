// The rows of the two tables.
ghost use Rattle.std.specs.Prelude.{◌≡◌, Some, None};
ghost use Rattle.book.specs.Answers.{row};

// When a train leaves a stop, and the fare in cents to the next; they come together.
#[derive(Clone, Copy, PartialEq, Eq, Debug)]
pub struct Departure {
    pub minute: u16,
    pub fare: u16,
}

// One stop of a train. The first has no arrival, the last no departure.
#[derive(Clone, Copy, PartialEq, Eq, Debug)]
pub struct StopRow {
    pub station: u16,
    pub arrive: Option<u16>,
    pub depart: Option<Departure>,
}

// A train: its stops are the `count` rows of the stop table from the row `first` on.
#[derive(Clone, Copy, PartialEq, Eq, Debug)]
pub struct TrainRow {
    pub number: u16,
    pub code: u8,
    pub features: u16,
    pub first: u16,
    pub count: u8,
}

impl StopRow {
    // What to fill an unused table with.
    pub const BLANK: StopRow = StopRow {
        station: 0,
        arrive: None,
        depart: None,
    };

    // A train's first stop, which has no arrival.
    pub const fn first(station: u16, depart: Departure) -> StopRow
        ensures { result ≡ row station None (Some depart) }
    {
        StopRow {
            station,
            arrive: None,
            depart: Some(depart),
        }
    }

    // A stop between the first and the last.
    pub const fn through(station: u16, arrival: u16, departure: Departure) -> StopRow
        ensures { result ≡ row station (Some arrival) (Some departure) }
    {
        StopRow {
            station,
            arrive: Some(arrival),
            depart: Some(departure),
        }
    }

    // A train's last stop, which has no departure.
    pub const fn last(station: u16, arrive: u16) -> StopRow
        ensures { result ≡ row station (Some arrive) None }
    {
        StopRow {
            station,
            arrive: Some(arrive),
            depart: None,
        }
    }
}

impl TrainRow {
    // What to fill an unused table with.
    pub const BLANK: TrainRow = TrainRow {
        number: 0,
        code: 0,
        features: 0,
        first: 0,
        count: 0,
    };
}
