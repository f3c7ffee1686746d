// The lines that the program prints, put on a page.
ghost use Rattle.std.specs.Prelude.{◌≡◌, take};
ghost use Rattle.text.specs.Paging.{Puts};
ghost use Rattle.queue_run.specs.Output.{spaced, queue_text, event_line, told_line};

use crate::club::{Outcome, Told};
use judge::{cited_of, code_of};
use queue::Queue;
use text::Page;

// The waiters in their order, a space before each.
fn put_waiters(page: &mut Page, waiters: &[u8])
    ensures { Puts page.old (spaced waiters.now) page.new }
{
    for w in waiters {
        page.byte(b' ');
        page.small(*w);
    }
}

// Those who wait: at most eight places are looked at.
fn waiters(queue: &Queue) -> &[u8]
    ensures { result.now ≡ take queue.now.count queue.now.waiting }
{
    &queue.waiting[..usize::from(queue.count.min(8))]
}

// Who holds the radio, the ticks left of his turn, and the waiters; of a free radio 255 and 0.
fn put_queue(page: &mut Page, queue: Queue)
    ensures { Puts page.old (queue_text queue) page.new }
{
    if queue.held != 1 {
        page.bytes(b"255 0");
        return;
    }
    page.small(queue.holder);
    page.byte(b' ');
    page.number(queue.left as usize);
    put_waiters(page, waiters(&queue));
}

// The line of an event.
fn put_event(page: &mut Page, index: usize, code: u8, queue: Queue)
    ensures { Puts page.old (event_line index code queue) page.new }
{
    page.number(index);
    page.byte(b' ');
    page.small(code);
    page.byte(b' ');
    put_queue(page, queue);
    page.byte(b'\n');
}

// The line of a record.
pub fn put_told(page: &mut Page, index: usize, told: Told)
    ensures { Puts page.old (told_line index told) page.new }
{
    match told.outcome {
        Outcome::Event(code) => put_event(page, index, code, told.club.queue),
        Outcome::Judged(verdict) => page.line(index, code_of(verdict), cited_of(verdict)),
    }
}
