// A USE that comes as numbers and not as a record: the judge is asked.

#![tactic(auto)]

ghost use Rattle.std.specs.Prelude.{◌≡◌};
ghost use Rattle.access.specs.Using.{use_verdict, use_code};

use judge::{code_of, decide};
use reach::Policy;
use rules::Verdict;

// What the judge says to a USE of the target x with operation k, sent by u.
pub fn use_verdict(p: Policy, u: u8, x: u8, k: u8) -> Verdict
    ensures { result ≡ use_verdict p u x k }
{
    let record = [7u8, 0, 8, 0, u, x, k];
    decide(&p, &record).verdict
}

// The number of that: 0, or the number of the refusal.
pub fn use_code(p: Policy, u: u8, x: u8, k: u8) -> u8
    ensures { result ≡ use_code p u x k }
{
    code_of(use_verdict(p, u, x, k))
}
