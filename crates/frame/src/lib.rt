// Records in bytes: the fields that every record begins with, and the reader that finds one record after the other.

#![tactic(auto)]

mod reading;

ghost use Rattle.std.specs.Prelude.{◌≡◌};
ghost use Rattle.frame.specs.Fields.{byte, little_endian, length_field, kind_field};

pub use reading::{count_steps, read_after, read_at};
use std::error::Error;
use std::fmt;

// What is torn: bytes left over that begin with no whole record.
#[derive(Clone, Copy, Debug, PartialEq, Eq)]
pub struct Torn;

impl fmt::Display for Torn {
    fn fmt<W: fmt::Write>(&self, f: &mut fmt::Formatter<W>) -> fmt::Result {
        f.write_str("torn: no whole record")
    }
}

impl Error for Torn {}

// Lent bytes and a position in them. It gives record after record, and a torn place once, as the last.
#[derive(Clone, Copy)]
pub struct Reader<'a> {
    pub bytes: &'a [u8],
    pub at: usize,
}

// Byte i of a record; past its end 0.
pub fn byte(b: &[u8], i: usize) -> u8
    ensures { result ≡ byte b.now i }
{
    b.get(i).copied().unwrap_or(0)
}

// The number of two bytes, little-endian.
pub fn little_endian(low: u8, high: u8) -> usize
    ensures { result ≡ little_endian low high }
{
    usize::from(u16::from_le_bytes([low, high]))
}

// The length that the record gives itself.
pub fn length_field(b: &[u8]) -> usize
    ensures { result ≡ length_field b.now }
{
    little_endian(byte(b, 0), byte(b, 1))
}

// The kind of the request.
pub fn kind_field(b: &[u8]) -> usize
    ensures { result ≡ kind_field b.now }
{
    little_endian(byte(b, 2), byte(b, 3))
}
