// Where a record stands in the work table, and the label that it holds.
ghost use Rattle.std.specs.Prelude.{◌≡◌, ◌<◌, ◌≤◌, length, Some, slice_set};
ghost use Rattle.search.specs.Limits.{layer_size};
ghost use Rattle.search.specs.Records.{record_of};
ghost use Rattle.search.specs.Working.{size_of, number as number_of, place as place_of, layer_at, part_at, label_at};

use crate::inquiry::Inquiry;
use crate::layer::Layer;
use crate::limits::layer_size;
use crate::record::WorkRecord;
use connection::label::Label;
use connection::ride::Shift;

// The parts of a layer in their order. Only a place in the table has numbers for shifts; a shift and a row name it, and stay
// two, as each is asked for alone too.
fn number(shift: Shift) -> usize
    ensures is { result ≡ number_of shift }
    ensures below { result < 3 }
{
    match shift {
        Shift::DayBefore => 0,
        Shift::SameDay => 1,
        Shift::DayAfter => 2,
    }
}

// That a row or a place lies inside is a fact of it and of the inquiry together, so each call that is given one asks for it.
impl<P> Inquiry<'_, P> {
    // The place in a layer of the row in the part for that shift.
    pub fn place(&self, shift: Shift, row: usize) -> usize
        requires inside { row ≤ size_of self.now }
        ensures { result ≡ place_of (size_of self.now) shift row }
    {
        number(shift) * self.stops.len() + row
    }

    // Which part of a layer has the place, and the row of the stop table that it stands for.
    pub fn shift_and_row(&self, place: usize) -> (Shift, usize)
        requires inside { place < layer_size (size_of self.now) }
        ensures is { place ≡ place_of (size_of self.now) result.0 result.1 }
        ensures inside { result.1 < size_of self.now }
    {
        let size = self.stops.len();
        if place < size {
            (Shift::DayBefore, place)
        } else if place < 2 * size {
            (Shift::SameDay, place - size)
        } else {
            (Shift::DayAfter, place - 2 * size)
        }
    }

    // Where the layer begins in the work table.
    pub fn layer_at(&self, layer: Layer) -> usize
        ensures { result ≡ layer_at (size_of self.now) layer.number }
    {
        layer.number * layer_size(self.stops.len())
    }

    // Where its part for that shift begins.
    pub fn part_at(&self, layer: Layer, shift: Shift) -> usize
        ensures { result ≡ part_at (size_of self.now) layer.number shift }
    {
        self.layer_at(layer) + self.place(shift, 0)
    }
}

// The label in the record at that place of the table.
pub fn label_at<T: Copy>(work: &[WorkRecord<T>], at: usize) -> Option<Label<T>>
    requires within { at < length work.now }
    ensures { result ≡ label_at work.now at }
{
    work[at].label()
}

// Writes the record at that place of the table whole.
pub fn put_label<T: Copy>(work: &mut [WorkRecord<T>], at: usize, label: Label<T>)
    requires within { at < length work.old }
    ensures { work.new ≡ slice_set work.old at (record_of (Some label)) }
{
    work[at] = WorkRecord::from(label);
}
