// The labels of a layer as the arrivals ahead of the next.
ghost use Rattle.std.specs.Prelude.{◌≡◌, ◌+◌, ◌<◌, length};
ghost use Rattle.search.specs.Chains.{comes, ChainedLayer};
ghost use Rattle.search.specs.Limits.{layer_size, most_places};
ghost use Rattle.search.specs.Notes.{Listed};
ghost use Rattle.search.specs.Working.{size_of, stop_in, HasLayers};

use crate::chains::{Arrivals, NEVER};
use crate::inquiry::Inquiry;
use crate::layer::Layer;
use crate::reached::Reached;
use crate::record::WorkRecord;
use crate::table::label_at;
use connection::allowed::may_alight;
use connection::ride::Shift;
use tariff::Tariff;

impl<P: Tariff> Inquiry<'_, P> {
    // Takes those that are promising. Whoever changes from another ends up no cheaper than the known end.
    pub fn arrive(
        &self,
        work: &[WorkRecord<P::Total>],
        layer: Layer,
        reached: &Reached<P::Total>,
        arrivals: &mut Arrivals<P::Total>,
    )
        requires within { HasLayers (size_of self.now) work.now (layer.number + 1) }
        requires listed { Listed (size_of self.now) layer.number (layer_size (size_of self.now)) work.now reached.now.notes }
        requires long { length arrivals.old.nexts ≡ most_places }
        requires long_minutes { length arrivals.old.minutes ≡ most_places }
        ensures known { arrivals.new.known ≡ reached.now.end }
        ensures chained { ChainedLayer (P.Tariff.meaning self.now.tariff.now) self.now work.now layer.number arrivals.new }
    {
        arrivals.clear(reached.end);
        let at = self.layer_at(layer);
        for place in reached.notes.places() {
            let place = *place as usize;
            let label = self.if_promising(reached.end, label_at(work, at + place));
            if label.is_some() {
                let (shift, row) = self.shift_and_row(place);
                arrivals.add(self.stops[row].station, self.comes(row, shift), place);
            }
        }
    }

    // The minute at which who is on board the run of that shift comes to the row, if one may alight there.
    fn comes(&self, row: usize, shift: Shift) -> u16
        requires inside { row < size_of self.now }
        ensures { result ≡ comes self.now.query.now (stop_in self.now row) shift }
    {
        if !may_alight(&self.stops[row]) {
            return NEVER;
        }
        self.reaches(row, shift)
    }
}
