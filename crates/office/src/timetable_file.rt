// A timetable that is read from a file.
use crate::files;
use book::limits::{MOST_STOPS, MOST_TRAINS};
use book::rows::{StopRow, TrainRow};
use book::state::Book;
use desk::report::Found;
use std::io::{self, Write};
use text::fault::Misread;
use text::reading::read;
use text::writing::write;

// The book with its tables, and how long its text is.
#[derive(Drop)]
pub struct TimetableFile {
    pub book: Book,
    pub trains: Vec<TrainRow>,
    pub stops: Vec<StopRow>,
    length: usize,
}

impl TimetableFile {
    // The timetable of the file, or where its text is broken.
    pub fn read(rt: &HostRuntime, file: &str) -> anyhow::Result<Result<TimetableFile, Found>> {
        let text = files::read(rt, file)?;
        let mut trains = vec![in rt.alloc(); TrainRow::BLANK; MOST_TRAINS as usize]?;
        let mut stops = vec![in rt.alloc(); StopRow::BLANK; MOST_STOPS as usize]?;
        match read(Book::new(), &mut trains, &mut stops, &text) {
            Ok(book) => Ok(Ok(TimetableFile {
                book,
                trains,
                stops,
                length: text.len(),
            })),
            Err(Misread { book: _, fault }) => Ok(Err(Found(fault))),
        }
    }

    // Prints its text, which is as long as the one that it was read from.
    pub fn print(&self, rt: &HostRuntime) -> anyhow::Result<()> {
        let mut buffer = vec![in rt.alloc(); 0u8; self.length]?;
        let length = write(&self.book, &self.trains, &self.stops, &mut buffer)?;
        io::writer(rt).write_all(&buffer[..length])?;
        Ok(())
    }
}
