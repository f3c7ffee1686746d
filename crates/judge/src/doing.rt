// What an accepted request does.
ghost use Rattle.std.specs.Prelude.{◌≡◌};
ghost use Rattle.rules.specs.Doing.{after};

use reach::{Appointment, Policy};
use rules::Request;

// The policy after a request, were it accepted: the policy hands back its successor. This is the one place that carries a request out.
pub fn after(p: Policy, q: Request) -> Policy
    ensures { result ≡ after p q }
{
    match q {
        Request::Make { place, sort, group } => p.made(place, sort, group),
        Request::Put { object, group } => p.put(object, group),
        Request::Take { object, group } => p.taken(object, group),
        Request::Appoint {
            place,
            kind,
            holder,
            a,
            b,
        } => {
            let w = Appointment { kind, holder, a, b };
            p.appointed(place, w)
        },
        Request::Dismiss { place } => p.dismissed(place),
        Request::Grant {
            place,
            users,
            targets,
            operations,
        } => p.granted(place, users, targets, operations),
        Request::Withdraw { place } => p.withdrawn(place),
        Request::Use { .. } => p,
    }
}
