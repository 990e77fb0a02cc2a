// The text of a book's trains, written into a lent buffer.
ghost use Rattle.std.specs.Prelude.{◌≡◌, length};
ghost use Rattle.book.specs.Histories.{Closed, LeadsOn};
ghost use Rattle.book.specs.PlainList.{reads};
ghost use Rattle.text.specs.Returns.{Restores};
ghost use Rattle.text.specs.Writing.{write, length_of, buffer_after};

use crate::measuring::text_fits;
use crate::putting::put_text;
use crate::refusal::Refusal;
use book::histories::every_history_holds;
use book::rows::{StopRow, TrainRow};
use book::state::Book;

// Writes the text of the book's trains to the front of the buffer, and tells how long it is. Refused under 1 where the tables do
// not hold what the book says, and 21 where the buffer is shorter than the text; then nothing is written.
pub fn write(
    book: &Book,
    trains: &[TrainRow],
    stops: &[StopRow],
    buffer: &mut [u8],
) -> Result<usize, Refusal>
    ensures answer { result ≡ length_of (write book.now trains.now stops.now (length buffer.old)) }
    ensures buffer { buffer.new ≡ buffer_after (write book.now trains.now stops.now (length buffer.old)) buffer.old }
    ensures restores { Restores book.now trains.now stops.now result buffer.new }
    ensures history { LeadsOn (Closed book.now) trains.now stops.now reads (Closed book.now) trains.now stops.now }
{
    // what was written of a book that calls have built can be read back
    every_history_holds();
    book.check(trains, stops)?;
    let rows = &trains[..book.trains() as usize];
    if !text_fits(buffer.len(), rows, stops) {
        return Err(Refusal::ShortBuffer);
    }
    Ok(put_text(buffer, rows, stops))
}
