// A policy on a card: the writer and the reader of its file.

#![tactic(auto)]

mod entries;
mod reading;
mod writing;

ghost use Rattle.std.specs.Prelude.{◌≡◌};
ghost use Rattle.snapshot.specs.Answers.{code_of};

pub use reading::read_card;
pub use writing::write_card;

// One record of a card, with its fields in document 02's order.
#[derive(Clone, Copy, Debug, PartialEq, Eq)]
pub enum Entry {
    Object(u8, u8),
    Membership(u8, u8),
    Appointed(u8, u8, u8, u8, u8),
    Granted(u8, u8, u8, u8),
}

// Why a card is not written or not read, with document 02's numbers.
#[derive(Clone, Copy, Debug, PartialEq, Eq)]
pub enum CardError {
    Damaged = 13,
    Short = 14,
}

// How far a file is written: the place of the next byte in the buffer, which is its end once there is no more room, and how many bytes it
// has so far, with room for them or not.
#[derive(Clone, Copy)]
pub struct Pen {
    pub at: usize,
    pub needed: usize,
}

// The number of the refusal, or 0 for what is done.
pub fn card_code<T>(answer: &Result<T, CardError>) -> u8
    ensures { result ≡ code_of answer.now }
{
    match answer {
        Ok(_) => 0,
        Err(e) => *e as u8,
    }
}
