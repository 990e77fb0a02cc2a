// What is read, line by line.
ghost use Rattle.std.specs.Prelude.{◌≡◌, IfOk};
ghost use Rattle.std.specs.Io.BufRead.{strip_last};
ghost use Rattle.desk.specs.Input.{TakesLine, asks_if_any};

use crate::expected::Expected;
use crate::question::{Question, asked_by};
use std::alloc::Allocator;
use std::io::{self, BufRead};

// Reads the next line into `line`, without its line feed, and says whether there was one; the last line may lack its feed.
pub fn next_line<R: BufRead, A: Allocator>(input: &mut R, line: &mut Vec<u8, A>) -> io::Result<bool>
    ensures { IfOk result (λ more. TakesLine (R.remaining input.old) (R.remaining input.new) more line.new.items) }
{
    line.clear();
    input.read_until(b'\n', line)?;
    let more = !line.is_empty();
    drop_feed(line);
    Ok(more)
}

// Takes the line feed off, if the line ends in one.
fn drop_feed<A: Allocator>(line: &mut Vec<u8, A>)
    ensures { line.new.items ≡ strip_last 10 line.old.items }
{
    if line.last() == Some(&b'\n') {
        line.pop();
    }
}

// What the line of a query asks; an empty line asks nothing.
pub fn asked_if_any(line: &[u8]) -> Option<Result<Question, Expected>>
    ensures { result ≡ asks_if_any line.now }
{
    if line.is_empty() {
        return None;
    }
    Some(asked_by(line))
}
