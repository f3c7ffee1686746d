// What each event makes of a record, by value.
ghost use Rattle.std.specs.Prelude.{◌≡◌, [], ◌<◌, ◌≤◌, length};
ghost use Rattle.access.specs.Using.{use_verdict};
ghost use Rattle.queue.specs.Line.{free, held, counted, may_transmit, called};
ghost use Rattle.queue.specs.Stored.{is_held, waiters, queue_of, may_at, after_join, after_leave, after_tick};
ghost use Rattle.queue.specs.Rows.{followed, joined_of};

use crate::rows::fits;
use crate::{Queue, Refused};
use access::use_verdict;
use reach::Policy;
use rules::Verdict;

// What the judge says to a USE of operation 2 on the gear.
fn asked(p: Policy, gear: u8, u: u8) -> Verdict
    ensures { result ≡ use_verdict p u gear 2 }
{
    use_verdict(p, u, gear, 2)
}

// Whether u is permitted operation 2 on the gear.
fn may_transmit(p: Policy, gear: u8, u: u8) -> bool
    ensures { result ≡ may_transmit p gear u }
{
    asked(p, gear, u).is_ok()
}

// N as it counts.
fn counted(turn: u16) -> u16
    ensures { result ≡ counted turn }
{
    turn.clamp(1, 600)
}

impl Queue {
    // Those who wait, in their order.
    fn waiters(&self) -> &[u8]
        ensures value { result.now ≡ waiters self.now }
        ensures few { length result.now ≤ 8 }
    {
        &self.waiting[..usize::from(self.count.min(8))]
    }

    // Whether the radio is held, by a record with nothing wrong in it.
    fn is_held(self) -> bool
        ensures { result ≡ is_held self }
    {
        let waiters = self.waiters();
        self.held == 1
            && self.count <= 8
            && 1 <= self.left
            && self.left <= counted(self.turn)
            && self.holder < 64
            && !waiters.contains(&self.holder)
            && fits(waiters)
    }

    // The radio free, and nobody waits.
    fn freed(self) -> Self
        ensures { result ≡ queue_of self free }
    {
        Queue::start(self.gear, self.turn)
    }

    // The radio held, for so many ticks, and these wait.
    fn given(self, holder: u8, left: u16, waiters: &[u8]) -> Self
        requires { length waiters.now ≤ 8 }
        ensures { result ≡ queue_of self (held holder left waiters.now) }
    {
        let count = waiters.len();
        let mut waiting = [0; 8];
        waiting[..count].copy_from_slice(waiters);
        Self {
            gear: self.gear,
            turn: self.turn,
            held: 1,
            holder,
            left,
            count: count as u8,
            waiting,
        }
    }

    // One more waits, behind the others.
    fn followed(mut self, u: u8) -> Self
        requires { self.count < 8 }
        ensures { result ≡ followed self u }
    {
        self.waiting[usize::from(self.count)] = u;
        self.count += 1;
        self
    }

    // The call: the first waiter who is permitted gets the radio for a whole turn, and all ahead of him are struck.
    fn call(self, p: Policy) -> Self
        ensures { result ≡ queue_of self (called (may_at self p) (counted self.turn) (waiters self)) }
    {
        let mut rest = self.waiters();
        while let Some((w, behind)) = rest.split_first() {
            if may_transmit(p, self.gear, *w) {
                return self.given(*w, counted(self.turn), behind);
            }
            rest = behind;
        }
        self.freed()
    }

    // The record after a join by u, or why it is refused.
    pub fn joined_by(self, p: Policy, u: u8) -> Result<Self, Refused>
        ensures { joined_of self result ≡ after_join self p u }
    {
        asked(p, self.gear, u)?;
        if !self.is_held() {
            return Ok(self.given(u, counted(self.turn), &[]));
        }
        let waiters = self.waiters();
        if self.holder == u || waiters.contains(&u) {
            return Err(Refused::InLine);
        }
        if waiters.len() == 8 {
            return Err(Refused::Full);
        }
        Ok(self.given(self.holder, self.left, waiters).followed(u))
    }

    // The record after u has left.
    pub fn left_by(self, p: Policy, u: u8) -> Self
        ensures { result ≡ after_leave self p u }
    {
        if !self.is_held() {
            return self;
        }
        if self.holder == u {
            return self.call(p);
        }
        let waiters = self.waiters();
        if !waiters.contains(&u) {
            return self;
        }
        let mut after = self.given(self.holder, self.left, &[]);
        for w in waiters {
            if *w != u {
                after = after.followed(*w);
            }
        }
        after
    }

    // The record after a tick.
    pub fn ticked(self, p: Policy) -> Self
        ensures { result ≡ after_tick self p }
    {
        if !self.is_held() {
            return self;
        }
        if self.left == 1 {
            return self.call(p);
        }
        self.given(self.holder, self.left - 1, self.waiters())
    }
}
