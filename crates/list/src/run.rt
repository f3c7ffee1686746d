// The run of a whole list, which is handed in as bytes and the ends of its records.
ghost use Rattle.std.specs.Prelude.{◌≡◌};
ghost use Rattle.reach.specs.Tables.{initial};
ghost use Rattle.rules.specs.Doing.{after};
ghost use Rattle.rules.specs.Judging.{numbers_of, judge};
ghost use Rattle.list.specs.Parts.{part, handed};
ghost use Rattle.list.specs.Filling.{RunInto};
ghost use Rattle.list.specs.Demand.{FoundingDemand3};

use judge::{after, cited_of, code_of, decide};
use reach::Policy;
use rules::Request;

// The request carried out. It is a function of its own, so that what it costs to hand back a policy is spent on requests that change one.
fn carry_out(policy: &mut Policy, q: Request)
    ensures { policy.new ≡ after policy.old q }
{
    *policy = after(*policy, q);
}

// The code of the answer to a record, and the rule that it cites. The policy is the one after the record.
pub(crate) fn answered(policy: &mut Policy, bytes: &[u8]) -> (u8, u8)
    ensures numbers { result ≡ numbers_of (judge policy.old bytes.now).verdict }
    ensures policy { policy.new ≡ (judge policy.old bytes.now).policy }
{
    let decision = decide(policy, bytes);
    let code = code_of(decision.verdict);
    let cited = cited_of(decision.verdict);
    // A refusal leaves the policy as it stood, and so does a USE, which cites a rule. The two numbers are asked, which are written anyway, so
    // that a wrong one is a wrong policy (D33): the edits `does_what_it_refuses` and `run_drops_what_was_done` are of these tests.
    if code == 0 {
        if cited == 255 {
            carry_out(policy, decision.request);
        }
    }
    (code, cited)
}

// The bytes between two places; none where the second comes before the first, or lies past the end.
fn part(bytes: &[u8], start: usize, end: usize) -> &[u8]
    ensures { result.now ≡ part bytes.now start end }
{
    bytes.get(start..end).unwrap_or(&[])
}

// Runs a list from any policy, and answers the policy that it leaves. Codes and cited rules are two buffers, as C lends them (`selkaum_run`). Where one of the two buffers has no room for all answers, nothing is
// judged or written.
pub fn run_from(
    p: Policy,
    bytes: &[u8],
    ends: &[usize],
    codes: &mut [u8],
    cited: &mut [u8],
) -> Option<Policy>
    ensures { RunInto p (handed bytes.now ends.now)
        codes.old cited.old codes.new cited.new result }
{
    if codes.len() < ends.len() {
        return None;
    }
    if cited.len() < ends.len() {
        return None;
    }
    let mut policy = p;
    let mut start = 0;
    for (i, end) in ends.iter().enumerate() {
        let (code, rule) = answered(&mut policy, part(bytes, start, *end));
        codes[i] = code;
        cited[i] = rule;
        start = *end;
    }
    Some(policy)
}

// Runs a list from the founding; and of that list demand 3 holds, whole.
pub fn run_list(bytes: &[u8], ends: &[usize], codes: &mut [u8], cited: &mut [u8]) -> Option<Policy>
    ensures run_into { RunInto initial (handed bytes.now ends.now)
        codes.old cited.old codes.new cited.new result }
    ensures founding_demand3 { FoundingDemand3 (handed bytes.now ends.now) }
{
    run_from(Policy::initial(), bytes, ends, codes, cited)
}
