// The cheapest connection over rows that hold a book.
ghost use Rattle.connection.specs.Connections.{most_rides};
ghost use Rattle.std.specs.Prelude.{◌≡◌, ◌≤◌, length, replicate};
ghost use Rattle.search.specs.Answers.{FoundOrNone, rides_left};
ghost use Rattle.search.specs.Layers.{BlankFrom};
ghost use Rattle.search.specs.Notes.{BlankElsewhere};
ghost use Rattle.search.specs.Records.{blank};
ghost use Rattle.search.specs.Working.{size_of, asked_over, HasLayers};

use crate::inquiry::Inquiry;
use crate::layer::Layer;
use crate::limits::{BLOCK, BLOCKS};
use crate::notes::Notes;
use crate::reached::Reached;
use crate::record::WorkRecord;
use crate::refusal::Refusal;
use calendar::Calendar;
use connection::ride::Ride;
use tariff::Tariff;

impl<P: Tariff> Inquiry<'_, P> {
    // Fills the layers of a blank table, writes the rides that led to the cheapest label at the destination, and blanks the
    // table again.
    pub fn cheapest<C: Calendar>(
        &self,
        calendar: &C,
        rides: &mut [Ride],
        work: &mut [WorkRecord<P::Total>],
    ) -> Result<(P::Total, usize), Refusal>
        requires space { most_rides self.now.query.now ≤ length rides.old }
        requires within { HasLayers (size_of self.now) work.old (most_rides self.now.query.now) }
        requires blank { BlankFrom 0 work.old }
        ensures found { FoundOrNone (P.Tariff.meaning self.now.tariff.now) (asked_over self.now (C.Calendar.runs calendar.now)) self.now.query.now result rides.new }
        ensures rides { rides.new ≡ rides_left result rides.old rides.new }
        ensures work { work.new ≡ replicate (length work.old) blank }
    {
        // nobody travels without trains; making the tables below takes far longer than this answer
        if self.trains.is_empty() {
            return Err(Refusal::NoConnection);
        }
        let usable = self.usable(calendar);
        let mut reached = Reached {
            end: None,
            notes: Notes::none(),
        };
        self.fill_layers(work, &usable, &mut reached);
        // by a name of its own, as what `reached` holds is lent below
        let end = reached.end;
        let found = match end {
            Some(end) => {
                let layer = Layer { number: end.layer };
                self.write_rides(work, layer, end.place, rides);
                Ok((end.total, end.layer + 1))
            }
            None => Err(Refusal::NoConnection),
        };
        blank_touched(work, &reached.notes);
        found
    }
}

// Leaves nothing of a search behind: blanks the blocks in which a label was written.
fn blank_touched<T: Copy>(work: &mut [WorkRecord<T>], notes: &Notes)
    requires elsewhere { BlankElsewhere work.old notes.now }
    ensures { work.new ≡ replicate (length work.old) blank }
{
    let size = work.len();
    // a short table has few blocks
    let blocks = BLOCKS.min(size / BLOCK + 1);
    for (block, touched) in notes.touched[..blocks].iter().enumerate() {
        if *touched {
            let end = size.min((block + 1) * BLOCK);
            blank_block(&mut work[end.min(block * BLOCK)..end]);
        }
    }
}

// Blanks the records of a block. Many have been written, so it does not look at each first.
fn blank_block<T: Copy>(work: &mut [WorkRecord<T>])
    ensures { work.new ≡ replicate (length work.old) blank }
{
    for record in work.iter_mut() {
        *record = WorkRecord::blank();
    }
}

// Blanks all records.
pub fn blank_all<T: Copy>(work: &mut [WorkRecord<T>])
    ensures { work.new ≡ replicate (length work.old) blank }
{
    for record in work.iter_mut() {
        record.clear();
    }
}
