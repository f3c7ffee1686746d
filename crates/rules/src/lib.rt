// The rules of the judge: what a record asks for, who may send what, what each request does, and when the board says no. The rules
// themselves stand in specs/, and what follows from them in proofs/; here are the types that they speak of.

#![tactic(auto)]

ghost use Rattle.std.specs.Prelude.{◌≡◌};
ghost use Rattle.rules.specs.Judging.{number_of, checked};

use reach::Policy;

// A request as it is decoded, its sender aside; the fields are document 01's, in its order.
#[derive(Clone, Copy, Debug, PartialEq, Eq)]
pub enum Request {
    Make {
        place: u8,
        sort: u8,
        group: u8,
    },
    Put {
        object: u8,
        group: u8,
    },
    Take {
        object: u8,
        group: u8,
    },
    Appoint {
        place: u8,
        kind: u8,
        holder: u8,
        a: u8,
        b: u8,
    },
    Dismiss {
        place: u8,
    },
    Grant {
        place: u8,
        users: u8,
        targets: u8,
        operations: u8,
    },
    Withdraw {
        place: u8,
    },
    Use {
        target: u8,
        operation: u8,
    },
}

// One of the twelve refusals, in the order of document 01's table, each with its number there.
#[derive(Clone, Copy, Debug, PartialEq, Eq)]
pub enum Refusal {
    Torn = 1,
    Unknown = 2,
    Misfit = 3,
    Stranger = 4,
    OffTheSheet = 5,
    Absent = 6,
    WrongSort = 7,
    AlreadySo = 8,
    NoAuthority = 9,
    OwnGain = 10,
    HandOver = 11,
    Orphan = 12,
}

impl Refusal {
    // The check of which this is the refusal: refused with it, where it applies, and else passed.
    pub fn if_so(self, applies: bool) -> Result<(), Refusal>
        ensures { result ≡ checked applies self }
    {
        if applies { Err(self) } else { Ok(()) }
    }
}

// The number of a refusal in document 01's table.
impl From<Refusal> for u8 {
    ghost from_gives = { λ r n. n ≡ number_of r };

    fn from(refusal: Refusal) -> u8 {
        refusal as u8
    }
}

// The answer to a request: done, with the rule that permits it (an accepted USE cites one); or a refusal.
pub type Verdict = Result<Option<u8>, Refusal>;

// The policy after a request, and the verdict on it.
#[derive(Clone, Copy)]
pub struct Answer {
    pub policy: Policy,
    pub verdict: Verdict,
}
