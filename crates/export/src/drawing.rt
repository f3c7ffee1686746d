// The picture of a policy.
ghost use Rattle.std.specs.Prelude.{◌≡◌, List, ℕ, ◌+◌, ◌*◌, ◌≤◌};
ghost use Rattle.std.proofs.lemmas.List.Edits.{sets};
ghost use Rattle.export.specs.Picture.{flat, row_bytes, appointment_bytes, rule_bytes, picture_of};

use reach::{AccessRule, Appointment, Policy};

// A place of a table, in W bytes of the picture.
trait Drawn<const W: usize>: Copy {
    ghost bytes: { Self → List ℕ };

    fn drawn(self) -> [u8; W]
        ensures { result ≡ bytes self };
}

impl Drawn<8> for u64 {
    ghost bytes = { row_bytes };

    fn drawn(self) -> [u8; 8] {
        self.to_le_bytes()
    }
}

impl Drawn<4> for Appointment {
    ghost bytes = { appointment_bytes };

    fn drawn(self) -> [u8; 4] {
        [self.kind, self.holder, self.a, self.b]
    }
}

impl Drawn<4> for AccessRule {
    ghost bytes = { rule_bytes };

    fn drawn(self) -> [u8; 4] {
        [
            u8::from(self.used),
            self.users,
            self.targets,
            self.operations,
        ]
    }
}

// A table from a place on: the bytes of its places, one after the other.
fn put_table<T: Drawn<W>, const W: usize, const N: usize>(
    out: &mut [u8; 960],
    start: usize,
    table: &[T; N],
)
    requires { start + W * N ≤ 960 }
    ensures { out.new ≡ sets out.old start (flat T.bytes table.now) }
{
    for (i, place) in table.iter().enumerate() {
        let at = start + W * i;
        out[at..at + W].copy_from_slice(&place.drawn());
    }
}

// The whole policy.
pub fn put_policy(out: &mut [u8; 960], p: Policy)
    ensures { out.new ≡ picture_of p }
{
    out[..64].copy_from_slice(&p.sorts);
    put_table(out, 64, &p.memberships);
    put_table(out, 576, &p.appointments);
    put_table(out, 704, &p.rules);
}
