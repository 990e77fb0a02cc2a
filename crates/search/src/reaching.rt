// Which runs can be boarded at all, so that the others are passed over.
ghost use Rattle.std.specs.Prelude.{◌≡◌, ℕ, ◌<◌, ◌≤◌, length, slice_index_or};
ghost use Rattle.book.specs.Limits.{last_station, most_trains};
ghost use Rattle.connection.specs.Clock.{midnight};
ghost use Rattle.connection.specs.declared.ride.Shift.{Shift as AShift};
ghost use Rattle.search.specs.Chains.{there_from, missed_at, may_be_caught, OutOfReach, WithinReach, TellsMissed};

use crate::chains::{Arrivals, NEVER};
use crate::inquiry::Inquiry;
use crate::layer::Layer;
use crate::minutes::departure;
use book::limits::MOST_TRAINS;
use book::rows::StopRow;
use connection::allowed::may_board;
use connection::ride::Shift;
use tariff::Tariff;

impl<P: Tariff> Inquiry<'_, P> {
    // For each train by how many minutes its run of the day before is missed, after as many changes as the layer has. A run
    // of a later shift leaves that much later, and is boarded where this makes up for it.
    pub fn missed_by(
        &self,
        layer: Layer,
        arrivals: &Arrivals<P::Total>,
    ) -> [u16; MOST_TRAINS as usize]
        ensures out_of_reach { (s : AShift) → TellsMissed self.now layer.number arrivals.now result s }
        ensures within_reach { (n : ℕ) (s : AShift) → n < length self.now.trains.now → slice_index_or result n 0 ≤ midnight self.now.query.now s → WithinReach self.now layer.number arrivals.now n s }
        ensures each { length result ≡ most_trains }
    {
        let mut missed_by = [0; MOST_TRAINS as usize];
        // by number: what is written through a zip with the trains is lost to the proof
        for n in 0..self.trains.len() {
            missed_by[n] = self.minutes_missed(layer, arrivals, n);
        }
        missed_by
    }

    // How many that is for one train: the fewest of its stops.
    fn minutes_missed(&self, layer: Layer, arrivals: &Arrivals<P::Total>, train: usize) -> u16
        requires in_force { train < length self.now.trains.now }
        ensures out_of_reach { (s : AShift) → midnight self.now.query.now s < result → OutOfReach self.now layer.number arrivals.now train s }
        ensures within_reach { (s : AShift) → result ≤ midnight self.now.query.now s → WithinReach self.now layer.number arrivals.now train s }
    {
        let mut fewest = NEVER;
        for stop in self.trains[train].stops(self.stops) {
            if may_board(stop) {
                fewest = fewest.min(self.missed_at(layer, arrivals, stop));
            }
        }
        fewest
    }

    // Whether one may board the run of that shift at the stop, and is there by the time that it leaves.
    pub fn may_be_caught(
        &self,
        layer: Layer,
        arrivals: &Arrivals<P::Total>,
        shift: Shift,
        stop: &StopRow,
    ) -> bool
        requires known { stop.now.station ≤ last_station }
        ensures { result ≡ may_be_caught arrivals.now layer.number self.now.query.now stop.now shift }
    {
        may_board(stop) && self.missed_at(layer, arrivals, stop) <= self.query.midnight(shift)
    }

    // By how many minutes the run of the day before is missed at the stop.
    fn missed_at(&self, layer: Layer, arrivals: &Arrivals<P::Total>, stop: &StopRow) -> u16
        requires known { stop.now.station ≤ last_station }
        ensures { result ≡ missed_at arrivals.now layer.number self.now.query.now stop.now }
    {
        let there = self.there_from(layer, arrivals, stop.station);
        there.saturating_sub(departure(stop))
    }

    // The minute from which on one is at the station: at the start at the origin, later where somebody has come with a
    // change less.
    fn there_from(&self, layer: Layer, arrivals: &Arrivals<P::Total>, station: u16) -> u16
        requires known { station ≤ last_station }
        ensures { result ≡ there_from arrivals.now layer.number self.now.query.now station }
    {
        if layer.number > 0 {
            return arrivals.earliest[station as usize];
        }
        if station == self.query.origin {
            self.ready()
        } else {
            NEVER
        }
    }
}
