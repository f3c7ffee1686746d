// Turns at one radio: one holds it, and up to eight wait, first come first served. The line is one record that stays in
// its place: it is lent to each event, which alters it or leaves it as it was.

#![tactic(auto)]

ghost use Rattle.std.specs.Prelude.{◌≡◌};
ghost use Rattle.queue.specs.declared.Refused.TheVariants.{Use};
ghost use Rattle.queue.specs.Line.{refused_number, answer_code};
ghost use Rattle.queue.specs.Rows.{joined_as};
ghost use Rattle.queue.specs.Stored.{start, after_join, after_leave, after_tick};
ghost use Rattle.queue.specs.Wait.{WaitBoundFrom};

mod events;
mod rows;

use reach::Policy;
use rules::Refusal;

// The record of a waiting line. Any value is legal: one that says no sound line counts as an empty line with the radio
// free.
// The mark and the count are plain numbers, since any 16 bytes of C are one record (`bytes_of_queue`), and a malformed one stays as it was.
#[derive(Clone, Copy)]
pub struct Queue {
    // The radio, and N, the ticks of a turn as they were given; set at the start.
    pub gear: u8,
    pub turn: u16,
    // 1 held, any other number free.
    pub held: u8,
    // Who holds it, and the ticks left of his turn.
    pub holder: u8,
    pub left: u16,
    // How many wait, and who, the first in front.
    pub count: u8,
    pub waiting: [u8; 8],
}

// Why a join is refused: as a USE of operation 2 on the gear would be, or since he is in the line, or since it is full.
#[derive(Clone, Copy, Debug, PartialEq, Eq)]
pub enum Refused {
    Use(Refusal),
    InLine,
    Full,
}

impl From<Refusal> for Refused {
    ghost from_gives = { λ r e. e ≡ Use r };

    fn from(refusal: Refusal) -> Refused {
        Refused::Use(refusal)
    }
}

// The number of a refused join.
impl From<Refused> for u8 {
    ghost from_gives = { λ r n. n ≡ refused_number r };

    fn from(refused: Refused) -> u8 {
        match refused {
            Refused::Use(refusal) => u8::from(refusal),
            Refused::InLine => 15,
            Refused::Full => 16,
        }
    }
}

// The number of the answer to a join, 0 for an accepted one.
pub fn answer_code(answer: Result<(), Refused>) -> u8
    ensures { result ≡ answer_code answer }
{
    match answer {
        Ok(()) => 0,
        Err(refused) => u8::from(refused),
    }
}

impl Queue {
    // The empty line at a gear, with N. Whatever events follow, nobody waits longer in it than the bound says.
    pub fn start(gear: u8, turn: u16) -> Self
        ensures value { result ≡ start gear turn }
        ensures wait_bound_from { WaitBoundFrom result }
    {
        Self {
            gear,
            turn,
            held: 0,
            holder: 0,
            left: 0,
            count: 0,
            waiting: [0; 8],
        }
    }

    // u asks for the radio. A refusal leaves the record as it was.
    pub fn join(&mut self, p: Policy, u: u8) -> Result<(), Refused>
        ensures { joined_as self.new (answer_code result) ≡ after_join self.old p u }
    {
        *self = self.joined_by(p, u)?;
        Ok(())
    }

    // u leaves the line, or gives the radio back.
    pub fn leave(&mut self, p: Policy, u: u8)
        ensures { self.new ≡ after_leave self.old p u }
    {
        *self = self.left_by(p, u);
    }

    // A second goes by.
    pub fn tick(&mut self, p: Policy)
        ensures { self.new ≡ after_tick self.old p }
    {
        *self = self.ticked(p);
    }

    // A join on a record by value: it is lent to the event in its place, and handed back with the answer.
    pub fn joined_in_place(mut self, p: Policy, u: u8) -> (Self, Result<(), Refused>)
        ensures { joined_as result.0 (answer_code result.1) ≡ after_join self p u }
    {
        let answer = self.join(p, u);
        (self, answer)
    }

    // A leave on a record by value, in the same way.
    pub fn left_in_place(mut self, p: Policy, u: u8) -> Self
        ensures { result ≡ after_leave self p u }
    {
        self.leave(p, u);
        self
    }

    // A tick on a record by value, in the same way.
    pub fn ticked_in_place(mut self, p: Policy) -> Self
        ensures { result ≡ after_tick self p }
    {
        self.tick(p);
        self
    }
}
