// What one record does: document 01's go to the judge, and the program's own kinds to the line at the radio.
ghost use Rattle.std.specs.Prelude.{◌≡◌};
ghost use Rattle.queue_run.specs.Program.{founding, event_told, misfit_told, judged_told, told_of};
ghost use Rattle.queue_run.specs.Program.{start_told, join_told, leave_told, tick_told};

use frame::{byte, kind_field};
use judge::judge;
use queue::{Queue, answer_code};
use reach::Policy;
use rules::{Answer, Refusal, Verdict};

// The program's own kinds: numbers, since a record may have any kind, and the match on it needs no enum between.
const START: usize = 32;

const JOIN: usize = 33;

const LEAVE: usize = 34;

const TICK: usize = 35;

// The policy, and the line at the radio.
#[derive(Clone, Copy)]
pub struct Club {
    pub policy: Policy,
    pub queue: Queue,
}

// What came of a record: an event with its number, as `after_join` gives it (of the events only a join is ever refused), or the verdict on it.
#[derive(Clone, Copy, Debug, PartialEq, Eq)]
pub enum Outcome {
    Event(u8),
    Judged(Verdict),
}

// What a record leaves, and what came of it.
#[derive(Clone, Copy)]
pub struct Told {
    pub club: Club,
    pub outcome: Outcome,
}

// The founding policy, and the line until a START.
pub fn founded() -> Club
    ensures { result ≡ founding }
{
    Club {
        policy: Policy::initial(),
        queue: Queue::start(0, 0),
    }
}

// What is told of an event that leaves this line, with its number; the policy stays as it is.
fn event(club: &Club, queue: Queue, code: u8) -> Told
    ensures { result ≡ event_told club.now queue code }
{
    Told {
        club: Club { queue, ..*club },
        outcome: Outcome::Event(code),
    }
}

// What is told of an own kind with a wrong length: a misfit, and nothing changes.
fn misfit(club: &Club) -> Told
    ensures { result ≡ misfit_told club.now }
{
    Told {
        club: *club,
        outcome: Outcome::Judged(Err(Refusal::Misfit)),
    }
}

// START: the line is set anew, at the gear and with the N of the record.
fn started(club: &Club, bytes: &[u8]) -> Told
    ensures { result ≡ start_told club.now bytes.now }
{
    let turn = u16::from_le_bytes([byte(bytes, 5), byte(bytes, 6)]);
    event(club, Queue::start(byte(bytes, 4), turn), 0)
}

// JOIN: the user of the record asks for the radio.
fn joined(club: &Club, bytes: &[u8]) -> Told
    ensures { result ≡ join_told club.now bytes.now }
{
    let (queue, answer) = club.queue.joined_in_place(club.policy, byte(bytes, 4));
    event(club, queue, answer_code(answer))
}

// LEAVE: the user of the record leaves the line, or gives the radio back.
fn left(club: &Club, bytes: &[u8]) -> Told
    ensures { result ≡ leave_told club.now bytes.now }
{
    let queue = club.queue.left_in_place(club.policy, byte(bytes, 4));
    event(club, queue, 0)
}

// TICK: a second goes by.
fn ticked(club: &Club) -> Told
    ensures { result ≡ tick_told club.now }
{
    let queue = club.queue.ticked_in_place(club.policy);
    event(club, queue, 0)
}

// Any other record: the judge has it, with all its bytes, and the line stays as it is.
fn judged(club: &Club, bytes: &[u8]) -> Told
    ensures { result ≡ judged_told club.now bytes.now }
{
    let Answer { policy, verdict } = judge(club.policy, bytes);
    Told {
        club: Club { policy, ..*club },
        outcome: Outcome::Judged(verdict),
    }
}

// One record, whatever its bytes are. Its kind has two bytes, so that 33 with a high byte of 1 is no JOIN.
pub fn taken_in(club: &Club, bytes: &[u8]) -> Told
    ensures { result ≡ told_of club.now bytes.now }
{
    match (kind_field(bytes), bytes.len()) {
        (START, 7) => started(club, bytes),
        (JOIN, 5) => joined(club, bytes),
        (LEAVE, 5) => left(club, bytes),
        (TICK, 4) => ticked(club),
        (START | JOIN | LEAVE | TICK, _) => misfit(club),
        _ => judged(club, bytes),
    }
}
