// Riding a run from stop to stop, and the labels of who is on board.
ghost use Rattle.std.specs.Prelude.{◌≡◌, ◌+◌, ◌*◌, ◌<◌, ◌≤◌, true, length, None, slice_index_or, slice_set};
ghost use Rattle.connection.specs.Settled.{ridden_on};
ghost use Rattle.search.specs.Chains.{LinkedBefore};
ghost use Rattle.search.specs.Ends.{known_total, with_end};
ghost use Rattle.search.specs.Layers.{FillsRun, BlankFrom, run_begins};
ghost use Rattle.search.specs.Limits.{layer_size, most_places};
ghost use Rattle.search.specs.Notes.{Decides, Noted, noted};
ghost use Rattle.search.specs.Records.{record_of};
ghost use Rattle.search.specs.Working.{size_of, layer_at, label_at as label_of_record, costs_no_more, hopeless, beaten, if_promising, if_worth_following, HasLayers};

use crate::chains::Arrivals;
use crate::choosing::{cheaper, with_step};
use crate::ends::End;
use crate::inquiry::Inquiry;
use crate::layer::Layer;
use crate::limits::layer_size;
use crate::minutes::{hop, stand};
use crate::reached::Reached;
use crate::record::WorkRecord;
use crate::run::Run;
use crate::table::{label_at, put_label};
use book::rows::StopRow;
use connection::label::Label;
use tariff::Tariff;

impl<P: Tariff> Inquiry<'_, P> {
    // Writes the labels of the run in the layer, and what is reached by them. The layer's records from the run's first on are
    // blank, so no other is written. Where it says no, there is no label.
    pub fn fill_run(
        &self,
        work: &mut [WorkRecord<P::Total>],
        layer: Layer,
        arrivals: &Arrivals<P::Total>,
        run: Run,
        reached: &mut Reached<P::Total>,
    ) -> bool
        requires within { HasLayers (size_of self.now) work.old (layer.number + 1) }
        requires linked { LinkedBefore (P.Tariff.meaning self.now.tariff.now) self.now work.old layer.number arrivals.now reached.old.end }
        requires in_force { run.train < length self.now.trains.now }
        requires noted { Noted (P.Tariff.meaning self.now.tariff.now) (size_of self.now) work.old layer.number (run_begins self.now run.train run.shift) reached.old.notes }
        requires blank { BlankFrom (layer_at (size_of self.now) layer.number + run_begins self.now run.train run.shift) work.old }
        ensures { FillsRun (P.Tariff.meaning self.now.tariff.now) self.now layer.number run.train run.shift work.old work.new result reached.old reached.new }
    {
        let train = self.trains[run.train];
        let first = train.first as usize;
        let place = self.place(run.shift, first);
        let stops = train.stops(self.stops);
        let mut found = false;
        let mut aboard = None;
        for (i, stop) in stops.iter().enumerate() {
            if aboard.is_none() && !self.may_be_caught(layer, arrivals, run.shift, stop) {
                continue;
            }
            aboard = self.if_worth_following(work, layer, place + i, reached, aboard);
            self.keep(work, layer, place + i, stop, aboard, reached);
            found |= aboard.is_some();
            if let Some(next) = stops.get(i + 1) {
                let boarded = self.boarding(work, layer, arrivals, run, i);
                let boarded = self.if_promising(reached.end, boarded);
                aboard = self.ride_on(boarded, aboard, stop, next);
            }
        }
        found
    }

    // Writes the label at the stop, if there is one, in its record, which is blank, and notes that it is reached.
    fn keep(
        &self,
        work: &mut [WorkRecord<P::Total>],
        layer: Layer,
        place: usize,
        stop: &StopRow,
        label: Option<Label<P::Total>>,
        reached: &mut Reached<P::Total>,
    )
        requires within { HasLayers (size_of self.now) work.old (layer.number + 1) }
        requires placed { place < layer_size (size_of self.now) }
        requires room { reached.old.notes.count ≤ place }
        requires blank { BlankFrom (layer_at (size_of self.now) layer.number + place) work.old }
        ensures work { work.new ≡ slice_set work.old (layer_at (size_of self.now) layer.number + place) (record_of label) }
        ensures end { reached.new.end ≡ with_end (P.Tariff.meaning self.now.tariff.now) self.now reached.old.end stop.now layer.number place label }
        ensures notes { reached.new.notes ≡ noted reached.old.notes layer.number place (layer_at (size_of self.now) layer.number + place) label }
    {
        if let Some(label) = label {
            let at = self.layer_at(layer) + place;
            put_label(work, at, label);
            reached.end = self.with_label(reached.end, stop, layer, place, label);
            reached.notes.add(layer, place, at);
        }
    }

    // The label at the next stop, of who has just boarded or of who was on board already, whichever is cheaper.
    fn ride_on(
        &self,
        boarded: Option<Label<P::Total>>,
        aboard: Option<Label<P::Total>>,
        stop: &StopRow,
        next: &StopRow,
    ) -> Option<Label<P::Total>>
        ensures { result ≡ ridden_on (P.Tariff.meaning self.now.tariff.now) stop.now next.now boarded aboard }
    {
        let stayed = with_step(self.tariff, aboard, stand(stop));
        with_step(
            self.tariff,
            cheaper(self.tariff, boarded, stayed),
            hop(stop, next),
        )
    }

    // The label, unless it costs at least what the known end does, or a label with fewer changes at the same place is no
    // dearer: then it is not worth following.
    fn if_worth_following(
        &self,
        work: &[WorkRecord<P::Total>],
        layer: Layer,
        place: usize,
        reached: &Reached<P::Total>,
        label: Option<Label<P::Total>>,
    ) -> Option<Label<P::Total>>
        requires within { HasLayers (size_of self.now) work.now layer.number }
        requires placed { place < layer_size (size_of self.now) }
        requires latest { Decides (P.Tariff.meaning self.now.tariff.now) (size_of self.now) work.now layer.number place (slice_index_or reached.now.notes.latest place None) }
        requires long { length reached.now.notes.latest ≡ most_places }
        ensures { result ≡ if_worth_following (P.Tariff.meaning self.now.tariff.now) (size_of self.now) work.now place (known_total reached.now.end) layer.number label }
    {
        // no `filter`: nothing is known of what its closure answers by the labels of a table
        let new = label?;
        let latest = reached.notes.latest[place];
        if self.is_hopeless(reached.end, new.total)
            || self.is_beaten(work, layer, place, latest, new.total)
        {
            return None;
        }
        label
    }

    // The label, unless it costs at least what the known end does: then nothing can come of it.
    pub fn if_promising(
        &self,
        known: Option<End<P::Total>>,
        label: Option<Label<P::Total>>,
    ) -> Option<Label<P::Total>>
        ensures { result ≡ if_promising (P.Tariff.meaning self.now.tariff.now) (known_total known) label }
    {
        let new = label?;
        if self.is_hopeless(known, new.total) {
            return None;
        }
        label
    }

    // Whether the known end costs no more: travelling on never makes a journey cheaper.
    fn is_hopeless(&self, known: Option<End<P::Total>>, total: P::Total) -> bool
        ensures { result ≡ hopeless (P.Tariff.meaning self.now.tariff.now) (known_total known) total }
    {
        known.is_some_and(|end| self.tariff.at_most(end.total, total))
    }

    // Whether a label with fewer changes at the place is no dearer. The latest one, if there is one, is the cheapest.
    fn is_beaten(
        &self,
        work: &[WorkRecord<P::Total>],
        layer: Layer,
        place: usize,
        latest: Option<u8>,
        total: P::Total,
    ) -> bool
        requires within { HasLayers (size_of self.now) work.now layer.number }
        requires placed { place < layer_size (size_of self.now) }
        requires latest { Decides (P.Tariff.meaning self.now.tariff.now) (size_of self.now) work.now layer.number place latest }
        ensures { result ≡ beaten (P.Tariff.meaning self.now.tariff.now) (size_of self.now) work.now place layer.number total }
    {
        let Some(before) = latest else {
            return false;
        };
        self.costs_no_more(work, before as usize, place, total)
    }

    // Whether the label at the place of that layer is there, and is no dearer.
    fn costs_no_more(
        &self,
        work: &[WorkRecord<P::Total>],
        layer: usize,
        place: usize,
        total: P::Total,
    ) -> bool
        requires within { layer_at (size_of self.now) layer + place < length work.now }
        ensures { result ≡ costs_no_more (P.Tariff.meaning self.now.tariff.now) (label_of_record work.now (layer_at (size_of self.now) layer + place)) total }
    {
        let label = label_at(work, layer * layer_size(self.stops.len()) + place);
        label.is_some_and(|l| self.tariff.at_most(l.total, total))
    }
}
