// The rides of a connection, as a traveller sees them.
ghost use Rattle.std.specs.Prelude.{◌≡◌};
ghost use Rattle.desk.specs.Legs.{leg_of};

use crate::report::Leg;
use book::rows::{StopRow, TrainRow};
use connection::ride::Ride;

// The ride of a query for this day, if the rows have it.
pub fn leg_of(day: u16, ride: Ride, trains: &[TrainRow], stops: &[StopRow]) -> Option<Leg>
    ensures { result ≡ leg_of day ride trains.now stops.now }
{
    let train = trains.get(ride.train as usize)?;
    let stops = train.stops(stops);
    let board = stops.get(ride.board as usize)?;
    let alight = stops.get(ride.alight as usize)?;
    let leave = board.depart?;
    let arrives = alight.arrive?;
    Some(Leg {
        train: train.number,
        day: ride.shift.sets_out(day),
        from: board.station,
        leaves: leave.minute,
        to: alight.station,
        arrives,
    })
}
