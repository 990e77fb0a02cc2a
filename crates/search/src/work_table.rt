// A work table that is blank between searches.
ghost use Rattle.std.specs.Prelude.{◌≡◌, length, replicate};
ghost use Rattle.search.specs.Layers.{BlankFrom};
ghost use Rattle.search.specs.Records.{blank};

use crate::cheapest::blank_all;
use crate::record::WorkRecord;

// Its records are known to be blank, so a search in it need not look them over first. It keeps them to itself: hence a
// Vec, which whoever allocates hands over, and not a lent slice.
#[derive(Drop)]
pub struct WorkTable<T> {
    pub(crate) records: Vec<WorkRecord<T>>,
    ghost blank: { BlankFrom 0 records.items },
}

impl<T: Copy> WorkTable<T> {
    // Blanks the records.
    pub fn new(mut records: Vec<WorkRecord<T>>) -> WorkTable<T>
        ensures { result.records.items ≡ replicate (length records.items) blank }
    {
        blank_all(&mut records);
        WorkTable { records }
    }

    // How many records it has.
    pub fn len(&self) -> usize
        ensures { result ≡ length self.now.records.items }
    {
        self.records.len()
    }
}
