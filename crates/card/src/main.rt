// The program for cards: `card save NAME` writes the policy that the requests on standard input leave from the founding to the file NAME, and
// `card load NAME` judges standard input from the policy of that file. No contract can say what is read and written: what is proved are the
// functions between.

#![tactic(auto)]

ghost use Rattle.std.specs.Prelude.{◌≤◌, length};

mod files;
mod texts;

use files::{complain, fetch, read_input, replace};
use std::env::{Env, FillError};
use std::io;
use std::io::Write;
use texts::{load_and_judge, save_list};

// What is saved: the length of the card, if there is one, and that of the line to print.
#[derive(Clone, Copy)]
pub struct Saved {
    pub card: Option<usize>,
    pub printed: usize,
}

// What is printed when a card is loaded: the lengths of the first line and of the text behind it.
#[derive(Clone, Copy)]
pub struct Told {
    pub head: usize,
    pub text: usize,
}

// `card save NAME`. The line is printed once the card is in its place.
fn save(rt: HostRuntime, name: &[u8]) -> io::Result<()> {
    let mut input = [0u8; 65537];
    let Some(read) = read_input(rt, &mut input) else {
        return Ok(());
    };
    let mut card = [0u8; 25376];
    let mut line = [0u8; 16];
    let saved = save_list(&input[..read], &mut card, &mut line);
    if let Some(length) = saved.card {
        if !replace(rt, name, &card[..length]) {
            return Ok(());
        }
    }
    rt.stdout().write_all(&line[..saved.printed])
}

// `card load NAME`. The card is read before standard input, and nothing is printed before both are.
fn load(rt: HostRuntime, name: &[u8]) -> io::Result<()> {
    let mut card = [0u8; 25377];
    let Some(count) = fetch(rt, name, &mut card) else {
        return Ok(());
    };
    if 25376 < count {
        complain(
            rt,
            name,
            "longer than any card, which has at most 25,376 bytes",
        );
        return Ok(());
    }
    let mut input = [0u8; 65537];
    let Some(read) = read_input(rt, &mut input) else {
        return Ok(());
    };
    let mut head = [0u8; 4];
    let mut text = [0u8; 212992];
    let told = load_and_judge(&card[..count], &input[..read], &mut head, &mut text);
    rt.stdout().write_all(&head[..told.head])?;
    rt.stdout().write_all(&text[..told.text])
}

// Says how the program is called.
fn usage(rt: HostRuntime) {
    complain(
        rt,
        b"usage",
        "card save NAME, or card load NAME (a name of at most 4,088 bytes)",
    );
}

// Puts a word behind the program's own name at the start of the buffer, and answers its length: 0 where there is no such word, or no room for
// all of it.
fn word_at(rt: HostRuntime, i: usize, buffer: &mut [u8]) -> usize
    ensures { result ≤ length buffer.new }
{
    rt.arg(i, buffer).unwrap_or(0)
}

// Whether there is such a word, of any length.
fn has_word(rt: HostRuntime, i: usize) -> bool {
    !matches!(rt.arg(i, &mut []), Err(FillError::NotPresent))
}

// The words behind the program's own name: a command, and a name that leaves room for the end of the new file's name.
fn main(rt: HostRuntime) -> io::Result<()> {
    let mut word = [0u8; 4];
    let letters = word_at(rt, 1, &mut word);
    let mut path = [0u8; 4088];
    let length = word_at(rt, 2, &mut path);
    if has_word(rt, 3) || length == 0 {
        usage(rt);
        return Ok(());
    }
    match &word[..letters] {
        b"save" => save(rt, &path[..length]),
        b"load" => load(rt, &path[..length]),
        _ => {
            usage(rt);
            Ok(())
        }
    }
}
