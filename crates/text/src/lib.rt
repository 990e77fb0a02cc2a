// The text form of a timetable: read into a book with every fault named by its place, and written back byte for byte.
//
//     train,code,features,station,arrive,depart,fare
//     11,127,1,1,,08:00,300
//     11,127,1,2,08:30,,
//
//     let book = read(Book::new(), &mut trains, &mut stops, text)?;     // or the book so far, and a fault with its place
//     let length = write(&book, &trains, &stops, &mut buffer)?;         // `buffer` begins with the text again
//
// A text is handed out line by line and field by field (`reader`). What a line says is a stop and its train (`saying`), which
// makes calls on the book (`filling`), one line after another (`reading`). A book is measured ahead of it being written
// (`measuring`, `putting`, `writing`), so that nothing is written where it does not fit.
#![tactic(auto)]

pub mod cut;
pub mod fault;
mod filling;
mod measuring;
mod names;
pub mod numbers;
mod putting;
mod reader;
pub mod reading;
pub mod refusal;
mod saying;
pub mod stage;
pub mod stop_line;
pub mod times;
pub mod writing;
