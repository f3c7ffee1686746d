// The reader of a card: record by record into an empty policy, each at a later place than the one before; at the end the policy must be
// sound.
ghost use Rattle.std.specs.Prelude.{◌≡◌, List, length, IfOk};
ghost use Rattle.text.specs.Text.{Bytes};
ghost use Rattle.list.specs.Demand.{Demand3};
ghost use Rattle.snapshot.specs.Answers.{Reads};
ghost use Rattle.snapshot.specs.Loading.{front, blank, load};

use crate::{CardError, Entry};
use frame::{byte, kind_field, length_field};
use reach::{AccessRule, Appointment, Policy};
use soundness::is_sound;

// The record at the front of the bytes.
fn front(b: &[u8]) -> Option<Entry>
    ensures { result ≡ front b.now }
{
    let n = length_field(b);
    if b.len() < n {
        return None;
    }
    match (n, kind_field(b)) {
        (6, 16) => Some(Entry::Object(byte(b, 4), byte(b, 5))),
        (6, 17) => Some(Entry::Membership(byte(b, 4), byte(b, 5))),
        (9, 18) => Some(Entry::Appointed(
            byte(b, 4),
            byte(b, 5),
            byte(b, 6),
            byte(b, 7),
            byte(b, 8),
        )),
        (8, 19) => Some(Entry::Granted(byte(b, 4), byte(b, 5), byte(b, 6), byte(b, 7))),
        _ => None,
    }
}

// The policy with nothing in it.
fn blank() -> Policy
    ensures { result ≡ blank }
{
    Policy {
        sorts: [0; 64],
        memberships: [0; 64],
        appointments: [Appointment::default(); 32],
        rules: [AccessRule::default(); 64],
    }
}

// The records of the card, stored in the empty policy, each with a higher number than the one before.
fn load(card: &[u8]) -> Result<Policy, CardError>
    ensures { result ≡ load (length card.now) blank 0 card.now }
{
    let mut policy = blank();
    let mut n = 0;
    let mut rest = card;
    while !rest.is_empty() {
        let e = front(rest).ok_or(CardError::Damaged)?;
        let k = e.number();
        if !e.valid() || k < n {
            return Err(CardError::Damaged);
        }
        e.store(&mut policy);
        n = k + 1;
        rest = &rest[e.size()..];
    }
    Ok(policy)
}

// The policy of a card. From it demand 3 holds for every list.
pub fn read_card(card: &[u8]) -> Result<Policy, CardError>
    ensures reads { Reads card.now result }
    ensures demand3 { IfOk result (λ p. (list : List Bytes) → Demand3 p list) }
{
    let policy = load(card)?;
    if is_sound(policy) {
        Ok(policy)
    } else {
        Err(CardError::Damaged)
    }
}
