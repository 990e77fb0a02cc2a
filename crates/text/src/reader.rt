// A text is handed out line by line, and a line field by field, as parts of the text that is lent.
ghost use Rattle.std.specs.Prelude.{◌≡◌, ℕ, ◌+◌, ◌-◌, ◌^◌, ◌<◌, ◌≤◌, cond, length, is_some, IfSome, nat_lt};
ghost use Rattle.text.specs.Cuts.{has, front, behind};
ghost use Rattle.text.specs.Faults.{malformed};
ghost use Rattle.text.specs.Handing.{next_field, after_field, next_column};
ghost use Rattle.text.specs.Lines.{fields};

use crate::cut::cut_at;
use crate::fault::{Cause, Fault};

// What is left of a text.
#[derive(Drop)]
pub struct Lines<'a> {
    left: &'a [u8],
    // how many lines were handed out
    count: usize,
    ghost few: { count + length left.now < 2 ^ 64 },
}

// A line of a text, and what is left of it.
#[derive(Drop)]
pub struct Reader<'a> {
    line: &'a [u8],
    left: &'a [u8],
    // the line's number in the text, from 1
    number: usize,
    // whether a line feed ends it
    has_feed: bool,
    ghost ordered: { length left.now ≤ length line.now },
}

// A field, and where it stands.
#[derive(Clone, Copy)]
pub struct Field<'a> {
    pub bytes: &'a [u8],
    pub line: usize,
    pub column: usize,
}

impl<'a> Lines<'a> {
    pub fn new(text: &'a [u8]) -> Lines<'a>
        ensures left { result.left.now ≡ text.now }
        ensures count { result.count ≡ 0 }
    {
        Lines {
            left: text,
            count: 0,
        }
    }

    // How many lines were handed out.
    pub fn count(&self) -> usize
        ensures { result ≡ self.now.count }
    {
        self.count
    }

    // The next line, if the text goes on.
    pub fn next_line(&mut self) -> Option<Reader<'a>>
        ensures some { is_some result ≡ nat_lt 0 (length self.old.left.now) }
        ensures line { IfSome result (λ r. r.line.now ≡ front 10 self.old.left.now) }
        ensures whole { IfSome result (λ r. r.left.now ≡ r.line.now) }
        ensures feed { IfSome result (λ r. r.has_feed ≡ has 10 self.old.left.now) }
        ensures number { IfSome result (λ r. r.number ≡ self.old.count + 1) }
        ensures left { self.new.left.now ≡ behind 10 self.old.left.now }
        ensures count { self.new.count ≡ self.old.count + cond (is_some result) 1 0 }
    {
        if self.left.is_empty() {
            return None;
        }
        let cut = cut_at(self.left, b'\n');
        self.left = cut.behind;
        self.count += 1;
        Some(Reader {
            line: cut.front,
            left: cut.front,
            number: self.count,
            has_feed: cut.found,
        })
    }
}

impl<'a> Reader<'a> {
    // How many fields the line has.
    pub fn count_fields(&self) -> usize
        ensures { result ≡ length (fields self.now.line.now) }
    {
        self.line.iter().filter(|byte| **byte == b',').count() + 1
    }

    // The next field, up to a comma or the end of the line.
    pub fn next_field(&mut self) -> Field<'a>
        ensures bytes { result.bytes.now ≡ next_field self.old.left.now }
        ensures line { result.line ≡ self.old.number }
        ensures column { result.column ≡ next_column self.old.line.now self.old.left.now }
        ensures left { self.new.left.now ≡ after_field self.old.left.now }
        ensures same_line { self.new.line.now ≡ self.old.line.now }
        ensures same_number { self.new.number ≡ self.old.number }
    {
        let column = self.line.len() - self.left.len() + 1;
        let cut = cut_at(self.left, b',');
        self.left = cut.behind;
        Field {
            bytes: cut.front,
            line: self.number,
            column,
        }
    }

    // The line as a whole is malformed.
    pub fn malformed(&self) -> Fault
        ensures { result ≡ malformed self.now.number 0 }
    {
        Fault {
            cause: Cause::Malformed,
            line: self.number,
            column: 0,
        }
    }

    // The line's bytes, without its line feed.
    pub fn line(&self) -> &'a [u8]
        ensures { result.now ≡ self.now.line.now }
    {
        self.line
    }

    pub fn number(&self) -> usize
        ensures { result ≡ self.now.number }
    {
        self.number
    }

    pub fn has_feed(&self) -> bool
        ensures { result ≡ self.now.has_feed }
    {
        self.has_feed
    }
}
