// The labels of a layer by station, so that who boards a train looks only at arrivals of its station.
//
//     heads: station 2 -> place 4, station 3 -> place 7, ..      the last place of the station that was taken
//     nexts: place 4 -> place 1, ..                              the one of the same station ahead of it
//     minutes: place 4 -> minute 1980, ..                        when who is on board comes to the station
//     earliest: station 2 -> minute 1930, ..                     when somebody comes there first
//
// They are taken from the first place of the layer on, so each becomes the first of its chain.
ghost use Rattle.std.specs.Prelude.{◌≡◌, ◌<◌, ◌≤◌};
ghost use Rattle.book.specs.Limits.{last_station};
ghost use Rattle.search.specs.Chains.{no_arrivals, cleared, with_arrival};
ghost use Rattle.search.specs.Limits.{most_places};

use crate::ends::End;
use crate::limits::{MOST_PLACES, STATIONS};

// No minute: nobody comes, or may alight.
pub const NEVER: u16 = u16::MAX;

// In arrays and by the number of a place, since the search allocates nothing.
#[derive(Drop)]
pub struct Arrivals<T> {
    pub heads: [Option<u16>; STATIONS],
    pub nexts: [Option<u16>; MOST_PLACES],
    pub minutes: [u16; MOST_PLACES],
    pub earliest: [u16; STATIONS],
    // the cheapest end that was known when they were taken: a label that costs as much was left out
    pub known: Option<End<T>>,
}

impl<T: Copy> Arrivals<T> {
    // Before the first layer, which clears them: of zeros throughout, so that they are made at one stroke.
    #[inline(always)]
    pub fn none() -> Arrivals<T>
        ensures { result ≡ no_arrivals }
    {
        Arrivals {
            heads: [None; STATIONS],
            nexts: [None; MOST_PLACES],
            minutes: [0; MOST_PLACES],
            earliest: [0; STATIONS],
            known: None,
        }
    }

    // Takes the place, behind all that were taken, as one with a label of the station, where it comes at the minute.
    pub fn add(&mut self, station: u16, minute: u16, place: usize)
        requires known { station ≤ last_station }
        requires placed { place < most_places }
        ensures { self.new ≡ with_arrival self.old station minute place }
    {
        let station = station as usize;
        self.nexts[place] = self.heads[station];
        self.heads[station] = Some(place as u16);
        self.minutes[place] = minute;
        self.earliest[station] = self.earliest[station].min(minute);
    }

    // Forgets all places, and takes those of a layer by what is known now.
    pub fn clear(&mut self, known: Option<End<T>>)
        ensures { self.new ≡ cleared self.old known }
    {
        self.known = known;
        self.heads = [None; STATIONS];
        self.earliest = [NEVER; STATIONS];
    }
}
