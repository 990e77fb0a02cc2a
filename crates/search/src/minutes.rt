// When a run is at a stop, and the steps that a traveller makes there.
ghost use Rattle.std.specs.Prelude.{◌≡◌, ◌-◌, ◌<◌};
ghost use Rattle.connection.specs.Clock.{ready};
ghost use Rattle.connection.specs.Prices.{stretch, hop, stand, as_step};
ghost use Rattle.connection.specs.Rides.{arrival, departure, fare_on};
ghost use Rattle.search.specs.Working.{size_of, row_reaches, row_leaves};

use crate::inquiry::Inquiry;
use book::rows::StopRow;
use connection::ride::Shift;
use tariff::step::{Kind, Step};

// A stop without the time, or the fare, has 0; no such is asked of a train that keeps the rules.
fn arrival(stop: &StopRow) -> u16
    ensures { result ≡ arrival stop.now }
{
    stop.arrive.unwrap_or(0)
}

pub fn departure(stop: &StopRow) -> u16
    ensures { result ≡ departure stop.now }
{
    stop.depart.map_or(0, |departure| departure.minute)
}

fn fare_on(stop: &StopRow) -> u16
    ensures { result ≡ fare_on stop.now }
{
    stop.depart.map_or(0, |departure| departure.fare)
}

impl<P> Inquiry<'_, P> {
    // The minute at which the run of that shift gets to the stop in the row.
    pub fn reaches(&self, row: usize, shift: Shift) -> u16
        requires inside { row < size_of self.now }
        ensures { result ≡ row_reaches self.now shift row }
    {
        arrival(&self.stops[row]) + self.query.midnight(shift)
    }

    // The minute at which it leaves that stop.
    pub fn leaves(&self, row: usize, shift: Shift) -> u16
        requires inside { row < size_of self.now }
        ensures { result ≡ row_leaves self.now shift row }
    {
        departure(&self.stops[row]) + self.query.midnight(shift)
    }

    // The minute from which the traveller waits at the origin.
    pub fn ready(&self) -> u16
        ensures { result ≡ ready self.now.query.now }
    {
        self.query.minute + self.query.midnight(Shift::SameDay)
    }
}

// A wait at a station: at the start, or for a change.
pub fn wait(kind: Kind, since: u16, until: u16) -> Step
    ensures { result ≡ as_step (stretch kind (until - since) 0) }
{
    Step::new(kind, until.saturating_sub(since), 0)
}

pub fn stand(stop: &StopRow) -> Step
    ensures { result ≡ as_step (stand stop.now) }
{
    Step::new(
        Kind::Stand,
        departure(stop).saturating_sub(arrival(stop)),
        0,
    )
}

pub fn hop(stop: &StopRow, next: &StopRow) -> Step
    ensures { result ≡ as_step (hop stop.now next.now) }
{
    Step::new(
        Kind::Ride,
        arrival(next).saturating_sub(departure(stop)),
        fare_on(stop),
    )
}
