// What a line of a timetable says.
ghost use Rattle.std.specs.Prelude.{◌≡◌, List};
ghost use Rattle.book.specs.Trains.{train_at};
ghost use Rattle.book.specs.declared.rows.StopRow.{StopRow};
ghost use Rattle.text.specs.Written.{stop_of};

use book::rows::{StopRow, TrainRow};

// A stop, and the train that makes it.
#[derive(Clone, Copy, PartialEq, Eq, Debug)]
pub struct StopLine {
    pub number: u16,
    pub code: u8,
    pub features: u16,
    pub stop: StopRow,
}

impl StopLine {
    // The line of a train's stop.
    pub(crate) fn of(row: &TrainRow, stop: StopRow) -> StopLine
        ensures { (stops : List StopRow) → result ≡ stop_of (train_at stops row.now) stop }
    {
        StopLine {
            number: row.number,
            code: row.code,
            features: row.features,
            stop,
        }
    }
}
