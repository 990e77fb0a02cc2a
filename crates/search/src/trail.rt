// The rides that led to a label, told by the records from the last ride back.
ghost use Rattle.std.specs.Prelude.{◌≡◌, ℕ, suc, ◌+◌, ◌<◌, ◌≤◌, List, ◌++◌, length, drop};
ghost use Rattle.book.specs.Answers.{train_row};
ghost use Rattle.connection.specs.declared.ride.Ride.{Ride as ARide};
ghost use Rattle.search.specs.Layers.{Spot, Trail, row_of};
ghost use Rattle.search.specs.Limits.{layer_size};
ghost use Rattle.search.specs.Working.{size_of, HasLayers};

use crate::inquiry::Inquiry;
use crate::layer::Layer;
use crate::record::WorkRecord;
use connection::ride::Ride;
use tariff::Tariff;

impl<P: Tariff> Inquiry<'_, P> {
    // Writes the rides that end with the label at the place of that layer.
    pub fn write_rides(
        &self,
        work: &[WorkRecord<P::Total>],
        layer: Layer,
        place: usize,
        rides: &mut [Ride],
    )
        requires within { HasLayers (size_of self.now) work.now (layer.number + 1) }
        requires room { layer.number < length rides.old }
        requires told { (whole : List ARide) × Trail self.now work.now (suc layer.number) place whole }
        ensures written { (whole : List ARide) → Trail self.now work.now (suc layer.number) place whole → rides.new ≡ whole ++ drop (layer.number + 1) rides.old }
    {
        let last = work[self.layer_at(layer) + place];
        // Who did not start on this train changed to it from a place of the layer before.
        if let Some(before) = layer.before() {
            self.write_rides(work, before, last.from as usize, rides);
        }
        rides[layer.number] = self.ride_to(place, last.board);
    }

    // The ride that was boarded at the stop `board` of its train, and ends at the place of a layer.
    fn ride_to(&self, place: usize, board: u8) -> Ride
        requires inside { place < layer_size (size_of self.now) }
        ensures ends { Spot self.now result.train result.shift result.alight place }
        ensures boards { result.board ≡ board }
    {
        let (shift, row) = self.shift_and_row(place);
        let (train, alight) = self.train_and_stop(row);
        Ride {
            train,
            shift,
            board,
            alight,
        }
    }

    // Which train stops at the row, and which of its stops that is.
    fn train_and_stop(&self, row: usize) -> (u16, u8)
        requires inside { row < size_of self.now }
        ensures listed { result.0 < length self.now.trains.now }
        ensures within { result.1 < (train_row result.0 self.now.trains.now).count }
        ensures is { row ≡ row_of self.now.trains.now result.0 result.1 }
    {
        let train = self.train_at(row);
        let first = self.trains[train].first as usize;
        (train as u16, (row - first) as u8)
    }

    // The trains lie one after another, so it is the last that does not begin behind the row.
    fn train_at(&self, row: usize) -> usize
        requires inside { row < size_of self.now }
        ensures listed { result < length self.now.trains.now }
        ensures begun { (train_row result self.now.trains.now).first ≤ row }
        ensures not_over { row < (train_row result self.now.trains.now).first + (train_row result self.now.trains.now).count }
    {
        self.trains
            .partition_point(|train| train.first as usize <= row)
            - 1
    }
}
