// The labels at the destination, of which the cheapest is the answer.
ghost use Rattle.std.specs.Prelude.{◌≡◌, Some};
ghost use Rattle.search.specs.Ends.{with_end};

use crate::choosing::{Priced, cheaper};
use crate::inquiry::Inquiry;
use crate::layer::Layer;
use book::rows::StopRow;
use connection::allowed::may_alight;
use connection::label::Label;
use tariff::Tariff;

// A label at the destination: its total, its layer, and its place in the layer.
#[derive(Clone, Copy)]
pub struct End<T> {
    pub total: T,
    pub layer: usize,
    pub place: usize,
}

impl<T: Copy> Priced<T> for End<T> {
    ghost total_of = { λ e. e.total };

    fn total(&self) -> T {
        self.total
    }
}

impl<P: Tariff> Inquiry<'_, P> {
    // The cheapest end that is known once the label at the stop is known too: that label, if it is an end and is cheaper.
    pub fn with_label(
        &self,
        known: Option<End<P::Total>>,
        stop: &StopRow,
        layer: Layer,
        place: usize,
        label: Label<P::Total>,
    ) -> Option<End<P::Total>>
        ensures { result ≡ with_end (P.Tariff.meaning self.now.tariff.now) self.now known stop.now layer.number place (Some label) }
    {
        if stop.station != self.query.destination || !may_alight(stop) {
            return known;
        }
        let end = End {
            total: label.total,
            layer: layer.number,
            place,
        };
        cheaper(self.tariff, known, Some(end))
    }
}
