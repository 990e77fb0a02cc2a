// What is wrong with a text, and where.
ghost use Rattle.std.specs.Prelude.{◌≡◌, Some};
ghost use Rattle.text.specs.Faults.{number, layer, layer_number, words_of};

use book::refusal::Refusal;
use book::state::Book;
use std::error::Error;
use std::fmt;

#[derive(Clone, Copy, PartialEq, Eq, Debug)]
pub enum Cause {
    // the first line is not the line of names
    Names,
    // a line has no line feed or a wrong count of fields, or a field cannot be read
    Malformed,
    // train, code or features differ from those of the train that is open
    Differs,
    // the book refuses a call
    Book(Refusal),
}

// Which layer finds the fault: the text by itself, or the book that it fills.
#[derive(Clone, Copy, PartialEq, Eq, Debug)]
pub enum Layer {
    Text,
    Book,
}

// Lines and columns count from 1, a column in bytes. Column 0 stands for a whole line, line 0 for the tables.
#[derive(Clone, Copy, PartialEq, Eq, Debug)]
pub struct Fault {
    pub cause: Cause,
    pub line: usize,
    pub column: usize,
}

// A book that a text could not fill to its end, and why. It has the trains that were finished ahead of the fault.
pub struct Misread {
    pub book: Book,
    pub fault: Fault,
}

impl Cause {
    // The number under which agents know the fault, which is part of the product.
    pub fn number(&self) -> u8
        ensures { result ≡ number self.now }
    {
        match self {
            Cause::Names => 18,
            Cause::Malformed => 19,
            Cause::Differs => 20,
            Cause::Book(reason) => reason.number(),
        }
    }

    pub fn layer(&self) -> Layer
        ensures { result ≡ layer self.now }
    {
        match self {
            Cause::Names | Cause::Malformed | Cause::Differs => Layer::Text,
            Cause::Book(_) => Layer::Book,
        }
    }
}

impl Layer {
    // The number under which agents know the layer.
    pub fn number(&self) -> u8
        ensures { result ≡ layer_number self.now }
    {
        match self {
            Layer::Text => 1,
            Layer::Book => 2,
        }
    }
}

// In plain words.
impl fmt::Display for Cause {
    ghost output = { λ cause. Some (words_of cause) };

    fn fmt<W: fmt::Write>(&self, f: &mut fmt::Formatter<W>) -> fmt::Result {
        match self {
            Cause::Names => write!(f, "the first line is not the line of names"),
            Cause::Malformed => write!(f, "the line or field is malformed"),
            Cause::Differs => write!(
                f,
                "the train, code or features differ from those of the open train"
            ),
            Cause::Book(reason) => write!(f, "{reason}"),
        }
    }
}

impl Error for Cause {}
