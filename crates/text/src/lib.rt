// Text into a lent buffer: bytes, decimal numbers, lines. A buffer that is too small gets as much of the text as it has room for.

#![tactic(auto)]

ghost use Rattle.std.specs.Prelude.{[], ◌∷◌, ◌≡◌};
ghost use Rattle.text.specs.Text.{Printed, decimal, line};
ghost use Rattle.text.specs.Paging.{Puts};

// A lent buffer, and the place where the next byte goes.
#[derive(Drop)]
pub struct Page<'a> {
    pub out: &'a mut [u8],
    pub at: usize,
}

impl<'a> Page<'a> {
    // The whole buffer, with nothing on it yet.
    pub fn new(out: &'a mut [u8]) -> Page<'a>
        ensures place { result.at ≡ 0 }
        ensures bytes { result.out.now ≡ out.old }
        ensures same { result.out.ghost_name ≡ out.entry.ghost_name }
    {
        Page { out, at: 0 }
    }

    // One byte.
    pub fn byte(&mut self, byte: u8)
        ensures { Puts self.old (byte ∷ []) self.new }
    {
        if self.at < self.out.len() {
            self.out[self.at] = byte;
            self.at += 1;
        }
    }

    // The bytes of a text.
    pub fn bytes(&mut self, text: &[u8])
        ensures { Puts self.old text.now self.new }
    {
        if self.at < self.out.len() {
            let count = text.len().min(self.out.len() - self.at);
            self.out[self.at..self.at + count].copy_from_slice(&text[..count]);
            self.at += count;
        }
    }

    // The number x in decimal.
    pub fn number(&mut self, x: usize)
        ensures { Puts self.old (decimal x) self.new }
    {
        if x >= 10 {
            self.number(x / 10);
        }
        self.byte(b'0' + (x % 10) as u8);
    }

    // The same of a number of a byte, which has at most three digits: with no call of itself. It stands beside `number` for speed: by that one
    // a line takes a quarter longer, 28 nanoseconds for 22 (measured).
    pub fn small(&mut self, x: u8)
        ensures { Puts self.old (decimal x) self.new }
    {
        if x >= 100 {
            self.byte(b'0' + x / 100);
        }
        if x >= 10 {
            self.byte(b'0' + x / 10 % 10);
        }
        self.byte(b'0' + x % 10);
    }

    // The line of a record, or of a torn place.
    pub fn line(&mut self, index: usize, code: u8, cited: u8)
        ensures { Puts self.old (line index code cited) self.new }
    {
        self.number(index);
        self.byte(b' ');
        self.small(code);
        self.byte(b' ');
        self.small(cited);
        self.byte(b'\n');
    }
}

// The text, from the start of the buffer on.
pub fn print(out: &mut [u8], text: &[u8]) -> usize
    ensures { Printed out.old text.now out.new result }
{
    let mut page = Page::new(out);
    page.bytes(text);
    page.at
}
