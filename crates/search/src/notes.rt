// Where labels are written, so that they are found again without looking the whole table over.
//
//     places: 1, 4, 7             the places with a label in the layer that is being filled, in their order
//     touched: block 0, ..        the blocks of the table in which one is written
//     latest: place 4 -> layer 1, ..    the last layer with a label at the place, which is the cheapest one there
ghost use Rattle.std.specs.Prelude.{◌≡◌, ◌*◌, ◌<◌, ◌≤◌, length, take};
ghost use Rattle.search.specs.Limits.{most_places, block, blocks};
ghost use Rattle.search.specs.Notes.{no_notes, for_next_layer, with_note};

use crate::layer::Layer;
use crate::limits::{BLOCK, BLOCKS, MOST_PLACES};

#[derive(Drop)]
pub struct Notes {
    pub places: [u16; MOST_PLACES],
    pub count: usize,
    pub touched: [bool; BLOCKS],
    pub latest: [Option<u8>; MOST_PLACES],
}

impl Notes {
    // Nothing is written yet.
    pub fn none() -> Notes
        ensures { result ≡ no_notes }
    {
        Notes {
            places: [0; MOST_PLACES],
            count: 0,
            touched: [false; BLOCKS],
            latest: [None; MOST_PLACES],
        }
    }

    // The places that are noted of the layer.
    pub fn places(&self) -> &[u16]
        requires few { self.now.count ≤ length self.now.places }
        ensures { result.now ≡ take self.now.count self.now.places }
    {
        &self.places[..self.count]
    }

    // Notes that a label is written at the place of the layer, in that record of the table.
    pub fn add(&mut self, layer: Layer, place: usize, at: usize)
        requires room { self.old.count < most_places }
        requires placed { place < most_places }
        requires inside { at < block * blocks }
        ensures { self.new ≡ with_note self.old layer.number place at }
    {
        self.places[self.count] = place as u16;
        self.count += 1;
        self.touched[at / BLOCK] = true;
        self.latest[place] = Some(layer.number as u8);
    }

    // Begins the next layer.
    pub fn begin_layer(&mut self)
        ensures { self.new ≡ for_next_layer self.old }
    {
        self.count = 0;
    }
}
