// The writer of a card. The same walk over the places measures the file, in a buffer of no bytes, and writes it.
ghost use Rattle.std.specs.Prelude.{◌≡◌, ◌≤◌, ◌<◌, ◌++◌, length, take, drop, get_or, Some};
ghost use Rattle.reach.specs.Tests.{Decides};
ghost use Rattle.reach.specs.Tables.{view};
ghost use Rattle.text.specs.Paging.{Puts};
ghost use Rattle.soundness.specs.Soundness.{Sound};
ghost use Rattle.snapshot.specs.Card.{bytes_of, from, file_of};
ghost use Rattle.snapshot.specs.Answers.{Writes};
ghost use Rattle.snapshot.specs.Writing.{Penned, entry_in, row_of};

use crate::entries::Placed;
use crate::{CardError, Entry, Pen};
use reach::Policy;
use soundness::is_sound;
use text::Page;

// The lent buffer, and how far the file is written there. It holds no page, since of a buffer that lies two structs deep the lender isn't told
// what became of it.
#[derive(Drop)]
pub struct Writer<'a> {
    pub out: &'a mut [u8],
    pub pen: Pen,
}

impl<'a> Writer<'a> {
    // At the start of the buffer.
    fn new(out: &'a mut [u8]) -> Writer<'a>
        ensures place { result.pen.at ≡ 0 }
        ensures needed { result.pen.needed ≡ 0 }
        ensures bytes { result.out.now ≡ out.old }
        ensures same { result.out.ghost_name ≡ out.entry.ghost_name }
    {
        Writer {
            out,
            pen: Pen { at: 0, needed: 0 },
        }
    }

    // What stands at a place, written and counted. The count stops at the largest number, which no file comes near.
    fn entry(&mut self, e: Option<Entry>)
        ensures { Penned self.old (bytes_of e) self.new }
    {
        if let Some(e) = e {
            let mut page = Page {
                out: &mut *self.out,
                at: self.pen.at,
            };
            put_entry(&mut page, e);
            self.pen.at = page.at;
            self.pen.needed = self.pen.needed.saturating_add(e.size());
        }
    }

    // What stands at the places of a table, of 64 at the most.
    fn table<T: Placed, const N: usize>(&mut self, table: &[T; N])
        requires { N ≤ 64 }
        ensures { Penned self.old (from N 0 (λ i. bytes_of (entry_in T.entry_of table.now i))) self.new }
    {
        for (i, w) in table.iter().enumerate() {
            self.entry(w.entry(i as u8));
        }
    }

    // The memberships of x in these groups, the lowest first.
    fn row(&mut self, groups: u64, x: u8)
        ensures { Penned self.old (row_of groups x) self.new }
    {
        let mut left = groups;
        while left != 0 {
            let g = left.trailing_zeros();
            self.entry(Some(Entry::Membership(x, g as u8)));
            left &= !(1 << g);
        }
    }

    // The memberships, object by object.
    fn memberships(&mut self, memberships: &[u64; 64])
        ensures { Penned self.old (from 64 0 (λ x. row_of (get_or memberships.now x 0) x)) self.new }
    {
        for (x, groups) in memberships.iter().enumerate() {
            self.row(*groups, x as u8);
        }
    }

    // The file.
    fn card(&mut self, p: &Policy)
        ensures { Penned self.old (file_of (view p.now)) self.new }
    {
        self.table(&p.sorts);
        self.memberships(&p.memberships);
        self.table(&p.appointments);
        self.table(&p.rules);
    }
}

// The bytes of a record. Where there is room for all of them they are copied by a length that the compiler knows, which takes no call: the
// largest card is written in two thirds of the time (measured).
fn put<const N: usize>(page: &mut Page, bytes: [u8; N])
    ensures { Puts page.old bytes.entry page.new }
{
    let at = page.at;
    if at < page.out.len() && N <= page.out.len() - at {
        page.out[at..at + N].copy_from_slice(&bytes);
        page.at += N;
    } else {
        page.bytes(&bytes);
    }
}

// The record of an entry.
fn put_entry(page: &mut Page, e: Entry)
    ensures { Puts page.old (bytes_of (Some e)) page.new }
{
    match e {
        Entry::Object(x, s) => put(page, [6, 0, 16, 0, x, s]),
        Entry::Membership(x, g) => put(page, [6, 0, 17, 0, x, g]),
        Entry::Appointed(i, k, h, a, b) => put(page, [9, 0, 18, 0, i, k, h, a, b]),
        Entry::Granted(i, u, t, o) => put(page, [8, 0, 19, 0, i, u, t, o]),
    }
}

// Writes the file over the first of the bytes, as much of it as there is room for, and answers its length.
fn pen_card(p: &Policy, out: &mut [u8]) -> usize
    ensures bytes { out.new ≡ take (length out.old) (file_of (view p.now)) ++ drop (length (file_of (view p.now))) out.old }
    ensures count { result ≡ length (file_of (view p.now)) }
{
    let mut writer = Writer::new(out);
    writer.card(p);
    writer.pen.needed
}

// The length of the file.
fn file_length(p: &Policy) -> usize
    ensures { result ≡ length (file_of (view p.now)) }
{
    pen_card(p, &mut [])
}

// Whether the file of a sound policy needs more bytes than there are. Bytes for the largest file are enough for any, and need no measuring.
fn too_few(room: usize, p: &Policy) -> bool
    requires { Sound (view p.now) }
    ensures { Decides result (room < length (file_of (view p.now))) }
{
    room < 25376 && room < file_length(p)
}

// Writes the file of a policy over the first of the lent bytes, or nothing: where the policy isn't sound, and then where the bytes are too
// few. The result is the file's length.
pub fn write_card(p: Policy, card: &mut [u8]) -> Result<usize, CardError>
    ensures { Writes p card.old card.new result }
{
    if !is_sound(p) {
        return Err(CardError::Damaged);
    }
    if too_few(card.len(), &p) {
        return Err(CardError::Short);
    }
    Ok(pen_card(&p, card))
}
