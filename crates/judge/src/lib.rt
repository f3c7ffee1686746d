// The judge: one request on one policy, answered as the crate `rules` says.

#![tactic(auto)]

ghost use Rattle.std.specs.Prelude.{◌≡◌};
ghost use Rattle.rules.specs.Judging.{verdict_on, judge, OneAnswer};
ghost use Rattle.judge.specs.Answering.{decided, formed_by, allowed_by, harmless_by};

mod authority;
mod doing;
mod form;
mod gaining;
mod numbers;
mod orphans;
mod records;
mod using;

use authority::allowed;
pub use doing::after;
use form::{absent, misfit, off_the_sheet, stranger, torn, unknown, wrong_sort};
use frame::byte;
pub use gaining::{own_gain_of, permission_gained};
use gains::{appoint_gains, grant_gains};
pub use numbers::{cited_of, code_of};
use orphans::{dismiss_orphans, take_orphans};
use reach::{AccessRule, Appointment, Policy};
use records::request_of;
use rules::{Answer, Refusal, Request, Verdict};

// What is decided on a record: who sends it, what it asks for, and the verdict.
#[derive(Clone, Copy)]
pub struct Decision {
    pub sender: u8,
    pub request: Request,
    pub verdict: Verdict,
}

// Checks 1 to 7, of the record and of what it names.
fn formed(p: &Policy, bytes: &[u8], u: u8, q: Request) -> Result<(), Refusal>
    ensures { result ≡ formed_by p.now bytes.now u q }
{
    Refusal::Torn.if_so(torn(bytes))?;
    Refusal::Unknown.if_so(unknown(bytes))?;
    Refusal::Misfit.if_so(misfit(bytes))?;
    Refusal::Stranger.if_so(stranger(p, u))?;
    Refusal::OffTheSheet.if_so(off_the_sheet(q))?;
    Refusal::Absent.if_so(absent(p, q))?;
    Refusal::WrongSort.if_so(wrong_sort(p, q))
}

// Checks 10 to 12, after those before: what the request would give, and what it would leave without an owner. Of each kind those are asked
// that it can fail, and of a PUT nothing is left to ask.
#[tactic(auto, unfolding(rules::specs::Refusals::own_gain, rules::specs::Refusals::hand_over, rules::specs::Refusals::orphan))]
fn harmless(p: &Policy, u: u8, q: Request) -> Result<(), Refusal>
    ensures { result ≡ harmless_by p.now u q }
{
    match q {
        Request::Appoint {
            place,
            kind,
            holder,
            a,
            b,
        } => {
            let w = Appointment { kind, holder, a, b };
            Refusal::OwnGain.if_so(appoint_gains(*p, u, place, w))
        }
        Request::Grant {
            place,
            users,
            targets,
            operations,
        } => {
            let rule = AccessRule {
                used: true,
                users,
                targets,
                operations,
            };
            Refusal::OwnGain.if_so(grant_gains(*p, u, place, rule))
        }
        Request::Take { object, group } => Refusal::Orphan.if_so(take_orphans(p, object, group)),
        Request::Dismiss { place } => Refusal::Orphan.if_so(dismiss_orphans(p, place)),
        _ => Ok(()),
    }
}

// The verdict on a record of that sender and request: the checks in their order, in three stages.
fn verdict_on(p: &Policy, bytes: &[u8], u: u8, q: Request) -> Verdict
    ensures { result ≡ verdict_on p.now bytes.now u q }
{
    formed(p, bytes, u, q)?;
    let by = allowed(p, u, q)?;
    harmless(p, u, q)?;
    Ok(by)
}

// Decides one record on one policy, for every policy and all bytes: who sends it, what it asks for, and the verdict that the rules give. No
// policy is handed back, so that a refusal copies none; that the decision, carried out, is the answer of the judge is a law (proofs/Ordered,
// `decided_answer`).
pub fn decide(p: &Policy, bytes: &[u8]) -> Decision
    ensures { result ≡ decided p.now bytes.now }
{
    let sender = byte(bytes, 4);
    let request = request_of(bytes);
    Decision {
        sender,
        request,
        verdict: verdict_on(p, bytes, sender, request),
    }
}

// The judge: the answer to one record on one policy, for every policy and all bytes. The first clause is demand 2, every answer and every policy
// after it as the rules have it; the second is demand 1, one numbered answer, and a refusal that changes nothing.
pub fn judge(p: Policy, bytes: &[u8]) -> Answer
    ensures value { result ≡ judge p bytes.now }
    ensures one_answer { OneAnswer p result }
{
    let decision = decide(&p, bytes);
    let verdict = decision.verdict;
    let policy = match verdict {
        Ok(None) => after(p, decision.request),
        Ok(Some(_)) => p,
        Err(_) => p,
    };
    Answer { policy, verdict }
}
