// Boarding a run: at the origin, or after a change.
ghost use Rattle.std.specs.Prelude.{◌≡◌, ◌+◌, ◌-◌, ◌<◌, ◌≤◌, length, option_map};
ghost use Rattle.book.specs.Answers.{train_row};
ghost use Rattle.book.specs.Limits.{last_station};
ghost use Rattle.connection.specs.Choosing.{cheaper as cheaper_of};
ghost use Rattle.connection.specs.Settled.{no_dearer};
ghost use Rattle.search.specs.Boarding.{changed, both_and_no_dearer, IsBestChange, label_at_start};
ghost use Rattle.search.specs.Chains.{never, ChainedLayer};
ghost use Rattle.search.specs.Layers.{SettlesWhoBoards};
ghost use Rattle.search.specs.Working.{size_of, HasLayers};

use crate::chains::Arrivals;
use crate::choosing::cheaper;
use crate::inquiry::Inquiry;
use crate::layer::Layer;
use crate::minutes::wait;
use crate::record::WorkRecord;
use crate::run::{Onward, Run};
use crate::table::label_at;
use connection::allowed::{can_catch, may_board};
use connection::label::Label;
use connection::ride::Shift;
use tariff::Tariff;
use tariff::step::Kind;

impl<P: Tariff> Inquiry<'_, P> {
    // The label of who boards the run at its stop `i`, after as many changes as the layer has, if the query may use the run.
    pub fn boarding(
        &self,
        work: &[WorkRecord<P::Total>],
        layer: Layer,
        arrivals: &Arrivals<P::Total>,
        run: Run,
        i: usize,
    ) -> Option<Label<P::Total>>
        requires within { HasLayers (size_of self.now) work.now layer.number }
        requires linked { 0 < layer.number → ChainedLayer (P.Tariff.meaning self.now.tariff.now) self.now work.now (layer.number - 1) arrivals.now }
        requires in_force { run.train < length self.now.trains.now }
        requires on_the_train { i < (train_row run.train self.now.trains.now).count }
        ensures settles { SettlesWhoBoards (P.Tariff.meaning self.now.tariff.now) self.now work.now layer.number arrivals.now.known run.train run.shift i result }
    {
        let row = self.trains[run.train].first as usize + i;
        let stop = &self.stops[row];
        if !may_board(stop) {
            return None;
        }
        let board = i as u8;
        let Some(before) = layer.before() else {
            return self.start(row, run.shift, board);
        };
        let onward = Onward {
            station: stop.station,
            minute: self.leaves(row, run.shift),
            board,
        };
        self.best_change(work, before, arrivals, onward)
    }

    // The label of who starts with the run of that shift at the row, if that is at the origin and the run does not leave
    // before the query's minute.
    fn start(&self, row: usize, shift: Shift, board: u8) -> Option<Label<P::Total>>
        requires inside { row < size_of self.now }
        ensures { result ≡ label_at_start (P.Tariff.meaning self.now.tariff.now) self.now shift row board }
    {
        let since = self.ready();
        let until = self.leaves(row, shift);
        if self.stops[row].station != self.query.origin || since > until {
            return None;
        }
        Some(Label {
            total: self
                .tariff
                .add(self.tariff.empty(), wait(Kind::Start, since, until)),
            board,
            from: 0,
        })
    }

    // The best change to what the traveller wants to catch, by the promising labels of that layer.
    fn best_change(
        &self,
        work: &[WorkRecord<P::Total>],
        layer: Layer,
        arrivals: &Arrivals<P::Total>,
        onward: Onward,
    ) -> Option<Label<P::Total>>
        requires within { HasLayers (size_of self.now) work.now (layer.number + 1) }
        requires known { onward.station ≤ last_station }
        requires sometime { onward.minute < never }
        requires linked { ChainedLayer (P.Tariff.meaning self.now.tariff.now) self.now work.now layer.number arrivals.now }
        ensures best { IsBestChange (P.Tariff.meaning self.now.tariff.now) self.now work.now layer.number arrivals.now onward result }
    {
        // who catches a train is there when it leaves
        if onward.minute < arrivals.earliest[onward.station as usize] {
            return None;
        }
        let at = self.layer_at(layer);
        let mut best = None;
        let mut next = arrivals.heads[onward.station as usize];
        while let Some(place) = next {
            let came = arrivals.minutes[place as usize];
            // the label is read only where one can change, as it lies far off
            if can_catch(came, onward.minute) {
                let label = label_at(work, at + place as usize);
                best = self.with_change(best, label, came, place, onward);
            }
            next = arrivals.nexts[place as usize];
        }
        best
    }

    // The best so far or the change from the label, of who came at the minute, whichever is cheaper. A change never costs
    // less than its label.
    fn with_change(
        &self,
        best: Option<Label<P::Total>>,
        label: Option<Label<P::Total>>,
        came: u16,
        from: u16,
        onward: Onward,
    ) -> Option<Label<P::Total>>
        ensures { result ≡ cheaper_of (no_dearer (P.Tariff.meaning self.now.tariff.now)) best (option_map (changed (P.Tariff.meaning self.now.tariff.now) came from onward) label) }
    {
        if self.both_and_no_dearer(best, label) {
            return best;
        }
        cheaper(self.tariff, best, self.change(label, came, from, onward))
    }

    // Whether both are there, and the first costs no more.
    fn both_and_no_dearer(
        &self,
        first: Option<Label<P::Total>>,
        second: Option<Label<P::Total>>,
    ) -> bool
        ensures { result ≡ both_and_no_dearer (P.Tariff.meaning self.now.tariff.now) first second }
    {
        first
            .zip(second)
            .is_some_and(|(a, b)| self.tariff.at_most(a.total, b.total))
    }

    // The label of who came at the minute, and changes.
    fn change(
        &self,
        label: Option<Label<P::Total>>,
        came: u16,
        from: u16,
        onward: Onward,
    ) -> Option<Label<P::Total>>
        ensures { result ≡ option_map (changed (P.Tariff.meaning self.now.tariff.now) came from onward) label }
    {
        let step = wait(Kind::Change, came, onward.minute);
        label.map(|before| Label {
            total: self.tariff.add(before.total, step),
            board: onward.board,
            from,
        })
    }
}
