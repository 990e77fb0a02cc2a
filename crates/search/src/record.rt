// The records that a caller lends to a search to work in.
ghost use Rattle.std.specs.Prelude.{◌≡◌, Some};
ghost use Rattle.search.specs.Records.{blank, is_blank, label_of, record_of};

use connection::label::Label;

// A total of whichever tariff the search brings, or none, and from where it came: the stop where the run was boarded, and
// the record with a change less from which one changed. The numbers are plain and not of the total, as a caller who fills a
// table with blank records writes them too.
#[derive(Clone, Copy)]
pub struct WorkRecord<T> {
    pub total: Option<T>,
    pub board: u8,
    pub from: u16,
}

impl<T: Copy> WorkRecord<T> {
    // What to fill a work table with, and what a search leaves there.
    pub fn blank() -> WorkRecord<T>
        ensures { result ≡ blank }
    {
        WorkRecord {
            total: None,
            board: 0,
            from: 0,
        }
    }

    // Whether nothing is written in it.
    fn is_blank(self) -> bool
        ensures { result ≡ is_blank self }
    {
        self.total.is_none() && self.board == 0 && self.from == 0
    }

    // Makes it blank. Most records of a table are, and it takes longer to write one than to look at it.
    pub(crate) fn clear(&mut self)
        ensures { self.new ≡ blank }
    {
        if !self.is_blank() {
            *self = WorkRecord::blank();
        }
    }

    // The label that the record holds, by that name: `Option::from` a record would not say what is taken out of it.
    pub(crate) fn label(self) -> Option<Label<T>>
        ensures { result ≡ label_of self }
    {
        self.total.map(|total| Label {
            total,
            board: self.board,
            from: self.from,
        })
    }
}

// The record that holds the label.
impl<T: Copy> From<Label<T>> for WorkRecord<T> {
    ghost from_gives = { λ label r. r ≡ record_of (Some label) };

    fn from(label: Label<T>) -> WorkRecord<T> {
        WorkRecord {
            total: Some(label.total),
            board: label.board,
            from: label.from,
        }
    }
}
