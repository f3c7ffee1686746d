// The policy after each accepted change. What a change does not name stays as it was.
ghost use Rattle.std.specs.Prelude.{◌≡◌, set};
ghost use Rattle.reach.specs.Tests.{◌⇒◌∥◌};
ghost use Rattle.reach.specs.Tables.{no_appointment};
ghost use Rattle.reach.specs.Successors.{on_table, remove_from, made, put, taken, appointed, dismissed, granted, withdrawn};

use crate::{AccessRule, Appointment, Policy};

// The value put at place i of a table; past its end nothing changes.
fn store<T: Copy, const N: usize>(table: &mut [T; N], i: u8, value: T)
    ensures { table.new ≡ set table.old i value }
{
    let n = i as usize;
    if n < N {
        table[n] = value;
    }
}

// The object x taken out of g, in the table alone; past the table nothing changes.
pub fn take_out(memberships: &mut [u64; 64], x: u8, g: u8)
    ensures { memberships.new ≡ (on_table x g ⇒ remove_from memberships.old x g ∥ memberships.old) }
{
    if (x < 64) & (g < 64) {
        memberships[x as usize] &= !(1u64 << g);
    }
}

// The appointment at place i taken away, in the table alone; past the table nothing changes.
pub fn dismiss(appointments: &mut [Appointment; 32], i: u8)
    ensures { appointments.new ≡ set appointments.old i no_appointment }
{
    store(appointments, i, Appointment::default());
}

impl Policy {
    // The object x made, of a sort, directly in g and in nothing else, with nothing in it.
    pub fn made(mut self, x: u8, sort: u8, g: u8) -> Policy
        ensures { result ≡ made self x sort g }
    {
        if (x < 64) & (g < 64) {
            for row in &mut self.memberships {
                *row &= !(1u64 << x);
            }
            self.memberships[x as usize] = 1u64 << g;
            self.sorts[x as usize] = sort;
        }
        self
    }

    // The object x put directly into g.
    pub fn put(mut self, x: u8, g: u8) -> Policy
        ensures { result ≡ put self x g }
    {
        if (x < 64) & (g < 64) {
            self.memberships[x as usize] |= 1u64 << g;
        }
        self
    }

    // The object x taken out of g.
    pub fn taken(mut self, x: u8, g: u8) -> Policy
        ensures { result ≡ taken self x g }
    {
        take_out(&mut self.memberships, x, g);
        self
    }

    // The place i filled with an appointment.
    #[tactic(auto, unfolding(crate::specs::Successors::appointed))]
    pub fn appointed(mut self, i: u8, w: Appointment) -> Policy
        ensures { result ≡ appointed self i w }
    {
        store(&mut self.appointments, i, w);
        self
    }

    // The appointment at place i taken away.
    #[tactic(auto, unfolding(crate::specs::Successors::appointed))]
    pub fn dismissed(mut self, i: u8) -> Policy
        ensures { result ≡ dismissed self i }
    {
        dismiss(&mut self.appointments, i);
        self
    }

    // The place i filled with the rule of users, targets and operations.
    #[tactic(auto, unfolding(crate::specs::Successors::ruled))]
    pub fn granted(mut self, i: u8, users: u8, targets: u8, operations: u8) -> Policy
        ensures { result ≡ granted self i users targets operations }
    {
        let rule = AccessRule {
            used: true,
            users,
            targets,
            operations,
        };
        store(&mut self.rules, i, rule);
        self
    }

    // The rule at place i taken away.
    #[tactic(auto, unfolding(crate::specs::Successors::ruled))]
    pub fn withdrawn(mut self, i: u8) -> Policy
        ensures { result ≡ withdrawn self i }
    {
        store(&mut self.rules, i, AccessRule::default());
        self
    }
}
