// What is reached while the layers are being filled.
use crate::ends::End;
use crate::notes::Notes;

// The cheapest end that is known, and where labels are written.
#[derive(Drop)]
pub struct Reached<T> {
    pub end: Option<End<T>>,
    pub notes: Notes,
}
