// Whether a call may be made; else why not, the earliest listed reason first.
//
// The `judge_` functions look at what the call asks alone: where the tables hold, the call is refused by what they find.
ghost use Rattle.std.specs.Prelude.{◌≡◌, ◌≤◌, true, List, length, take};
ghost use Rattle.book.specs.Answers.{place, place_if_any, ok_unless, given_unless};
ghost use Rattle.book.specs.Refusals.{begin_refusal, stop_refusal, finish_refusal, withdraw_refusal};
ghost use Rattle.book.specs.Trains.{holds, entry_holds};
ghost use Rattle.book.specs.declared.rows.StopRow.{StopRow};
ghost use Rattle.book.specs.declared.rows.TrainRow.{TrainRow};

use crate::limits::{MOST_STOPS, MOST_STOPS_OF_TRAIN, MOST_TRAINS};
use crate::reasons::first_of;
use crate::refusal::Refusal;
use crate::rows::{StopRow, TrainRow};
use crate::rules::{has_ended, last_of, may_follow};
use crate::state::{Book, Entry};
use crate::tables::hold_entry;

// The row of the first train with the number.
fn place_of(number: u16, rows: &[TrainRow]) -> Option<usize>
    ensures { result ≡ place_if_any number rows.now }
{
    rows.iter().position(|row| row.number == number)
}

impl Book {
    pub(crate) fn judge_begin(&self, trains: &[TrainRow], number: u16) -> Result<(), Refusal>
        requires { self.now.trains ≤ length trains.now }
        ensures { (stops : List StopRow) → holds self.now.trains self.now.stops trains.now stops ≡ true → result ≡ ok_unless (begin_refusal self.now trains.now stops number) }
    {
        let used = self.trains as usize;
        let is_known = place_of(number, &trains[..used]).is_some();
        let is_full = used >= MOST_TRAINS as usize || used >= trains.len();
        first_of(&[
            (number == 0, Refusal::ZeroNumber),
            (is_known, Refusal::KnownNumber),
            (is_full, Refusal::NoTrainRow),
        ])
    }

    pub(crate) fn may_begin(
        &self,
        trains: &[TrainRow],
        stops: &[StopRow],
        number: u16,
    ) -> Result<(), Refusal>
        ensures { result ≡ ok_unless (begin_refusal self.now trains.now stops.now number) }
    {
        self.check(trains, stops)?;
        self.judge_begin(trains, number)
    }

    // The row of the train that is to be withdrawn.
    pub(crate) fn place_to_withdraw(
        &self,
        trains: &[TrainRow],
        stops: &[StopRow],
        number: u16,
    ) -> Result<usize, Refusal>
        ensures { result ≡ given_unless (withdraw_refusal self.now trains.now stops.now number) (place number (take self.now.trains trains.now)) }
    {
        self.check(trains, stops)?;
        place_of(number, &trains[..self.trains as usize]).ok_or(Refusal::UnknownNumber)
    }
}

impl Entry {
    pub(crate) fn judge_stop(&self, stops: &[StopRow], next: StopRow) -> Result<(), Refusal>
        ensures { (trains : List TrainRow) → entry_holds self.now trains stops.now ≡ true → result ≡ ok_unless (stop_refusal self.now trains stops.now next) }
    {
        let row = self.row();
        may_follow(last_of(row.stops(stops)), next)?;
        let end = row.first as usize + row.count as usize;
        if row.count as usize >= MOST_STOPS_OF_TRAIN
            || end >= MOST_STOPS as usize
            || end >= stops.len()
        {
            return Err(Refusal::NoStopRow);
        }
        Ok(())
    }

    pub(crate) fn judge_finish(&self, stops: &[StopRow]) -> Result<(), Refusal>
        ensures { (trains : List TrainRow) → entry_holds self.now trains stops.now ≡ true → result ≡ ok_unless (finish_refusal self.now trains stops.now) }
    {
        if !has_ended(last_of(self.row().stops(stops))) {
            return Err(Refusal::Unfinished);
        }
        Ok(())
    }

    pub(crate) fn may_stop(
        &self,
        trains: &[TrainRow],
        stops: &[StopRow],
        next: StopRow,
    ) -> Result<(), Refusal>
        ensures { result ≡ ok_unless (stop_refusal self.now trains.now stops.now next) }
    {
        if !hold_entry(self, trains, stops) {
            return Err(Refusal::Damaged);
        }
        self.judge_stop(stops, next)
    }

    pub(crate) fn may_finish(&self, trains: &[TrainRow], stops: &[StopRow]) -> Result<(), Refusal>
        ensures { result ≡ ok_unless (finish_refusal self.now trains.now stops.now) }
    {
        if !hold_entry(self, trains, stops) {
            return Err(Refusal::Damaged);
        }
        self.judge_finish(stops)
    }
}
