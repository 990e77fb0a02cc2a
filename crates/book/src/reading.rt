// What the layers above may read of a book, an entry and their rows.
ghost use Rattle.std.specs.Prelude.{◌≡◌};
ghost use Rattle.book.specs.Answers.{check_answer};
ghost use Rattle.book.specs.Histories.{Closed, LeadsOn};
ghost use Rattle.book.specs.PlainList.{reads};
ghost use Rattle.book.specs.Trains.{train_at};

use crate::refusal::Refusal;
use crate::rows::{StopRow, TrainRow};
use crate::state::{Book, Entry};
use crate::tables::hold;

impl Book {
    // How many rows of the train table are in use.
    pub fn trains(&self) -> u16
        ensures { result ≡ self.now.trains }
    {
        self.trains
    }

    // How many rows of the stop table are in use.
    pub fn stops(&self) -> u16
        ensures { result ≡ self.now.stops }
    {
        self.stops
    }

    // Looks the tables over, as begin and withdraw do first; refused under 1 where they do not hold what the book says.
    pub fn check(&self, trains: &[TrainRow], stops: &[StopRow]) -> Result<(), Refusal>
        ensures answer { result ≡ check_answer self.now trains.now stops.now }
        ensures history { LeadsOn (Closed self.now) trains.now stops.now reads (Closed self.now) trains.now stops.now }
    {
        if !hold(self, trains, stops) {
            return Err(Refusal::Damaged);
        }
        Ok(())
    }
}

impl Entry {
    // The number of the train that is entered.
    pub fn number(&self) -> u16
        ensures { result ≡ self.now.number }
    {
        self.number
    }

    // Its calendar code.
    pub fn code(&self) -> u8
        ensures { result ≡ self.now.code }
    {
        self.code
    }

    // Its features.
    pub fn features(&self) -> u16
        ensures { result ≡ self.now.features }
    {
        self.features
    }
}

impl TrainRow {
    // The train's stops, as far as the stop table has them.
    pub fn stops<'a>(&self, stops: &'a [StopRow]) -> &'a [StopRow]
        ensures { result.now ≡ (train_at stops.now self.now).stops }
    {
        let first = stops.len().min(self.first as usize);
        let end = stops.len().min(first + self.count as usize);
        &stops[first..end]
    }
}
