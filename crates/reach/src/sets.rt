// Words of 64 bits as sets of numbers.
ghost use Rattle.std.specs.Prelude.{◌≡◌, true, ◌⊎◌, ◌-◌, ◌≤◌, ◌<◌, MatchOption};
ghost use Rattle.std.specs.Iterator.{at_most};
ghost use Rattle.reach.specs.Words.{SetOf, LowestOf, bit, has};

// Whether x is in the set.
pub fn has(set: u64, x: u8) -> bool
    ensures { result ≡ has set x }
{
    x < 64 && (set >> x) & 1 == 1
}

// The set, if the test passed, and else nothing.
pub fn only_if(passed: bool, set: u64) -> u64
    ensures { SetOf result (λ x. (passed ≡ true) × (bit set x ≡ 1)) }
{
    if passed { set } else { 0 }
}

// The set of x alone, if it is the number of an object, and else of nothing.
pub fn just(x: u8) -> u64
    ensures { SetOf result (λ y. (y < 64) × (x ≡ y)) }
{
    if x < 64 { 1u64 << x } else { 0 }
}

// The set of i alone where the test passed, and else of nothing, in 32 bits: its callers go through 32 numbers, and a loop over words of 64
// takes four times as long (`half_of`).
pub fn mark(passed: bool, i: usize) -> u32
    requires { i < 32 }
    ensures { SetOf result (λ x. (x ≡ i) × (passed ≡ true)) }
{
    if passed { 1u32 << i } else { 0 }
}

// The set of the low numbers and, 32 above them, the high ones.
pub fn joined(low: u32, high: u32) -> u64
    ensures { SetOf result (λ x. (bit low x ≡ 1) ⊎ ((32 ≤ x) × (bit high (x - 32) ≡ 1))) }
{
    (high as u64) * 4294967296 + (low as u64)
}

// The numbers of a set, the lowest first.
#[derive(Clone, Copy)]
pub struct Members(pub u64);

impl Iterator for Members {
    type Item = usize;

    ghost next_gives = { λ s r t. MatchOption r ((s.0 ≡ 0) × (t.0 ≡ 0)) (λ x. LowestOf s.0 x t.0) };

    ghost remaining = { λ s. at_most s.0 };

    fn next(&mut self) -> Option<usize> {
        if self.0 == 0 {
            return None;
        }
        let x = self.0.trailing_zeros();
        self.0 -= 1 << x;
        Some(x as usize)
    }
}
