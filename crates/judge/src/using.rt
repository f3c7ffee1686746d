// A USE: the rules decide it, and the lowest that permits it is cited.
ghost use Rattle.std.specs.Prelude.{◌≡◌};
ghost use Rattle.reach.specs.Tests.{◌⇒◌∥◌};
ghost use Rattle.rules.specs.declared.Request.TheVariants.{Use};
ghost use Rattle.rules.specs.declared.Refusal.TheVariants.{NoAuthority};
ghost use Rattle.rules.specs.Refusals.{no_authority};
ghost use Rattle.rules.specs.Judging.{done};

use reach::Policy;
use rules::{Refusal, Verdict};

// Check 9 of a USE of the target x with operation k, and the verdict where it passes: done by the rule that is found.
pub fn used(p: Policy, u: u8, x: u8, k: u8) -> Verdict
    ensures { result ≡ (no_authority p u (Use x k) ⇒ Err NoAuthority ∥ done p u (Use x k)) }
{
    match p.permitting(u, k, x) {
        Some(rule) => Ok(Some(rule)),
        None => Err(Refusal::NoAuthority),
    }
}
