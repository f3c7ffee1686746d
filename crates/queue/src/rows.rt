// The waiters as a slice.
ghost use Rattle.std.specs.Prelude.{◌≡◌};
ghost use Rattle.queue.specs.Stored.{fit};

// Whether the numbers are all up to 63, and none is there twice.
pub fn fits(waiters: &[u8]) -> bool
    ensures { result ≡ fit waiters.now }
{
    let mut rest = waiters;
    while let Some((w, behind)) = rest.split_first() {
        if *w >= 64 || behind.contains(w) {
            return false;
        }
        rest = behind;
    }
    true
}
