// A reader over lent bytes gives record after record. What stands at a position is asked in one place, `read_at`.
ghost use Rattle.std.specs.Prelude.{◌≡◌};
ghost use Rattle.std.specs.Iterator.{item_count};
ghost use Rattle.frame.specs.Reading.{torn, step_at, place_after, reader_at, reader_after, left, Finds, Goes, steps_of};

use crate::{Reader, Torn, length_field};

// Whether the bytes left over begin with no whole record.
fn torn(left: &[u8]) -> bool
    ensures { result ≡ torn left.now }
{
    let length = length_field(left);
    (left.len() < 4) | (length < 4) | (left.len() < length)
}

// What a reader at a position finds: the bytes of a record, or the mark of a torn place; at the end nothing. Whoever calls this one needs no
// reader of his own.
pub fn read_at(bytes: &[u8], at: usize) -> Option<Result<&[u8], Torn>>
    ensures { Finds bytes.now at result }
{
    if bytes.len() <= at {
        return None;
    }
    let left = &bytes[at..];
    if torn(left) {
        return Some(Err(Torn));
    }
    let length = length_field(left);
    Some(Ok(&left[..length]))
}

// Where a reader goes on after a position. A torn place is not left, nor is the end.
pub fn read_after(bytes: &[u8], at: usize) -> usize
    ensures { result ≡ place_after at (step_at bytes.now at) }
{
    match read_at(bytes, at) {
        Some(Ok(record)) => at + record.len(),
        Some(Err(Torn)) => at,
        None => at,
    }
}

impl<'a> Reader<'a> {
    // A reader of the bytes, at a position.
    pub fn new(bytes: &'a [u8], at: usize) -> Reader<'a>
        ensures { result ≡ reader_at bytes.entry at }
    {
        Reader { bytes, at }
    }

    // What stands at the reader's position.
    pub fn here(self) -> Option<Result<&'a [u8], Torn>>
        ensures { Finds self.entry.bytes.now self.entry.at result }
    {
        read_at(self.bytes, self.at)
    }

    // The reader where reading goes on. At a torn place it is this one, and says torn again.
    pub fn after(self) -> Reader<'a>
        ensures { result ≡ reader_after self.entry }
    {
        Reader::new(self.bytes, read_after(self.bytes, self.at))
    }
}

// A record, after which reading goes on at the next place; or the mark of a torn place, which is not left: it ends what is read.
impl<'a> Iterator for Reader<'a> {
    type Item = Result<&'a [u8], Torn>;

    ghost next_gives = { Goes };

    ghost remaining = { item_count left };

    fn next(&mut self) -> Option<Result<&'a [u8], Torn>> {
        let given = self.here();
        match given {
            Some(Ok(record)) => self.at += record.len(),
            // What stands behind a torn place is not read.
            Some(Err(Torn)) => self.bytes = &self.bytes[..self.at],
            None => {}
        }
        given
    }
}

// How many steps a reader makes before it stops: one for each record, and one for a torn place behind them.
pub fn count_steps(bytes: &[u8]) -> usize
    ensures { result ≡ steps_of bytes.now }
{
    Reader::new(bytes, 0).count()
}
