// The numbers by which document 01 calls the verdicts.
ghost use Rattle.std.specs.Prelude.{◌≡◌};
ghost use Rattle.rules.specs.Judging.{code_of, cited_of};

use rules::Verdict;

// The code of a verdict: 0 done, else the refusal's number.
pub fn code_of(v: Verdict) -> u8
    ensures { result ≡ code_of v }
{
    match v {
        Ok(_) => 0,
        Err(refusal) => u8::from(refusal),
    }
}

// The rule that a verdict cites: that of an accepted USE, otherwise 255.
pub fn cited_of(v: Verdict) -> u8
    ensures { result ≡ cited_of v }
{
    match v {
        Ok(Some(place)) => place,
        Ok(None) => 255,
        Err(_) => 255,
    }
}
