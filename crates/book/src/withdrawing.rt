// A train is taken out of the book. As in the other calls, what a refused one gives back would be let go of by `?`.
ghost use Rattle.std.specs.Prelude.{◌≡◌};
ghost use Rattle.book.specs.Answers.{withdraw_answer, withdraw_trains, withdraw_stops};
ghost use Rattle.book.specs.Histories.{Closed, withdrawn_to, LeadsOn};
ghost use Rattle.book.specs.PlainList.{withdraws};

use crate::moves::{take_out_stops, take_out_train};
use crate::refusal::Refused;
use crate::rows::{StopRow, TrainRow};
use crate::state::Book;

impl Book {
    // Takes out the first train with the number, and its stops. Later rows move forward, and the freed rows keep what
    // they held. Refused under 1 and 12, with the book as it was and no row written.
    pub fn withdraw(
        self,
        trains: &mut [TrainRow],
        stops: &mut [StopRow],
        number: u16,
    ) -> Result<Book, Refused<Book>>
        ensures answer { result ≡ withdraw_answer self trains.old stops.old number }
        ensures trains { trains.new ≡ withdraw_trains self trains.old stops.old number }
        ensures stops { stops.new ≡ withdraw_stops self trains.old stops.old number }
        ensures history { LeadsOn (Closed self) trains.old stops.old (withdraws number) (withdrawn_to result) trains.new stops.new }
    {
        match self.place_to_withdraw(trains, stops, number) {
            Ok(at) => {
                let row = trains[at];
                take_out_train(trains, at, self.trains as usize, row.count as u16);
                take_out_stops(
                    stops,
                    row.first as usize,
                    row.count as usize,
                    self.stops as usize,
                );
                Ok(Book {
                    trains: self.trains - 1,
                    stops: self.stops - row.count as u16,
                })
            }
            Err(refusal) => Err(Refused {
                back: self,
                refusal,
            }),
        }
    }
}
