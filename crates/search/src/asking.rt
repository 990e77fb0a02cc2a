// Which runs a query may use. The calendar is asked here, once for each train and shift.
ghost use Rattle.std.specs.Prelude.{◌≡◌};
ghost use Rattle.connection.specs.Rides.{does_run};
ghost use Rattle.search.specs.Layers.{Asked, ShiftAsked};

use crate::by_shift::ByShift;
use crate::inquiry::Inquiry;
use book::limits::MOST_TRAINS;
use calendar::Calendar;
use connection::ride::Shift;

// For each train and shift whether the query may use the run.
pub type Usable = ByShift<[bool; MOST_TRAINS as usize]>;

impl<P> Inquiry<'_, P> {
    // Asks the calendar, once for each train and shift.
    pub fn usable<C: Calendar>(&self, calendar: &C) -> Usable
        ensures { Asked self.now result (C.Calendar.runs calendar.now) }
    {
        ByShift::each(
            |shift| -> [bool; MOST_TRAINS as usize]
                ensures { ShiftAsked self.entry.now shift result (C.Calendar.runs calendar.entry.now) }
            { self.usable_on(calendar, shift) },
        )
    }

    // For each train whether the query may use its run of that shift.
    fn usable_on<C: Calendar>(&self, calendar: &C, shift: Shift) -> [bool; MOST_TRAINS as usize]
        ensures { ShiftAsked self.now shift result (C.Calendar.runs calendar.now) }
    {
        let mut usable = [false; MOST_TRAINS as usize];
        // by number: what is written through a zip with the places is lost to the proof
        for (n, train) in self.trains.iter().enumerate() {
            usable[n] = self.query.offered_by(train.features)
                && self.does_run(calendar, train.code, shift);
        }
        usable
    }

    // Whether a train with that code runs on the day.
    fn does_run<C: Calendar>(&self, calendar: &C, code: u8, shift: Shift) -> bool
        ensures { result ≡ does_run (C.Calendar.runs calendar.now) self.now.query.now code shift }
    {
        calendar.runs_on(code, shift.sets_out(self.query.day))
    }
}
