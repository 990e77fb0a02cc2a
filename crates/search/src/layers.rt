// The layers of labels, one for each number of changes.
ghost use Rattle.connection.specs.Connections.{most_rides};
ghost use Rattle.std.specs.Prelude.{◌≡◌, ◌+◌, ◌≤◌, length};
ghost use Rattle.search.specs.Chains.{LinkedBefore, TellsMissed};
ghost use Rattle.search.specs.Layers.{nothing_reached, FillsShift, FillsLayer, Asked, AllFilled, BlankFrom};
ghost use Rattle.search.specs.Notes.{Noted};
ghost use Rattle.search.specs.Working.{size_of, place, layer_at, HasLayers};

use crate::asking::Usable;
use crate::chains::Arrivals;
use crate::inquiry::Inquiry;
use crate::layer::Layer;
use crate::reached::Reached;
use crate::record::WorkRecord;
use crate::run::Run;
use book::limits::MOST_TRAINS;
use connection::ride::Shift;
use tariff::Tariff;

// The work table, a layer and the arrivals ahead of it stay three parameters, and that they belong together stays with each
// call: it is known of a table that is being written, and a struct that held the table would have to promise in every
// clause that the rest stays. Those that only read are called in the middle of that, with the table lent for the call.
impl<P: Tariff> Inquiry<'_, P> {
    // Writes layer after layer in a blank table, until all changes are used up or a layer has no label.
    pub fn fill_layers(
        &self,
        work: &mut [WorkRecord<P::Total>],
        usable: &Usable,
        reached: &mut Reached<P::Total>,
    )
        requires within { HasLayers (size_of self.now) work.old (most_rides self.now.query.now) }
        requires blank { BlankFrom 0 work.old }
        requires nothing { reached.old ≡ nothing_reached }
        ensures filled { AllFilled (P.Tariff.meaning self.now.tariff.now) self.now (Asked self.now usable.now) work.new reached.new }
    {
        let mut arrivals = Arrivals::none();
        for number in 0..self.query.most_rides() {
            let layer = Layer { number };
            if !self.fill_layer(work, layer, &arrivals, usable, reached) {
                return;
            }
            self.arrive(work, layer, reached, &mut arrivals);
            reached.notes.begin_layer();
        }
    }

    // Writes the labels of a layer, and what is reached by them. Where it says no, there is no label.
    fn fill_layer(
        &self,
        work: &mut [WorkRecord<P::Total>],
        layer: Layer,
        arrivals: &Arrivals<P::Total>,
        usable: &Usable,
        reached: &mut Reached<P::Total>,
    ) -> bool
        requires within { HasLayers (size_of self.now) work.old (layer.number + 1) }
        requires linked { LinkedBefore (P.Tariff.meaning self.now.tariff.now) self.now work.old layer.number arrivals.now reached.old.end }
        requires blank { BlankFrom (layer_at (size_of self.now) layer.number) work.old }
        requires noted { Noted (P.Tariff.meaning self.now.tariff.now) (size_of self.now) work.old layer.number 0 reached.old.notes }
        ensures { FillsLayer (P.Tariff.meaning self.now.tariff.now) self.now layer.number usable.now work.old work.new result reached.old reached.new }
    {
        let missed_by = self.missed_by(layer, arrivals);
        let mut found = false;
        for shift in Shift::all() {
            let usable = usable.on(shift);
            found |= self.fill_shift(work, layer, arrivals, usable, &missed_by, shift, reached);
        }
        found
    }

    // Does so for all runs of one shift. Nobody is on board a run that the query may not use, or that nobody can board.
    fn fill_shift(
        &self,
        work: &mut [WorkRecord<P::Total>],
        layer: Layer,
        arrivals: &Arrivals<P::Total>,
        usable: &[bool],
        missed_by: &[u16; MOST_TRAINS as usize],
        shift: Shift,
        reached: &mut Reached<P::Total>,
    ) -> bool
        requires within { HasLayers (size_of self.now) work.old (layer.number + 1) }
        requires linked { LinkedBefore (P.Tariff.meaning self.now.tariff.now) self.now work.old layer.number arrivals.now reached.old.end }
        requires each { length self.now.trains.now ≤ length usable.now }
        requires out_of_reach { TellsMissed self.now layer.number arrivals.now missed_by.now shift }
        requires blank { BlankFrom (layer_at (size_of self.now) layer.number + place (size_of self.now) shift 0) work.old }
        requires noted { Noted (P.Tariff.meaning self.now.tariff.now) (size_of self.now) work.old layer.number (place (size_of self.now) shift 0) reached.old.notes }
        ensures { FillsShift (P.Tariff.meaning self.now.tariff.now) self.now layer.number shift usable.now work.old work.new result reached.old reached.new }
    {
        let mut found = false;
        for (train, usable) in usable[..self.trains.len()].iter().enumerate() {
            if missed_by[train] <= self.query.midnight(shift) && *usable {
                let run = Run { train, shift };
                found |= self.fill_run(work, layer, arrivals, run, reached);
            }
        }
        found
    }
}
