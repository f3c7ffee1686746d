// Cards as files: what the system does with them is no part of any contract.
ghost use Rattle.std.specs.Prelude.{◌≡◌, ◌≤◌, ◌++◌, length, IfSome, IfOk};
ghost use Rattle.text.specs.Text.{Printed};
ghost use Rattle.card.specs.Program.{IsPrefixLen, six_unknown};

use intake::read_full;
use std::fs::{File, OpenOptions};
use std::io::{ErrorKind, Write};
use std::os::unix::fs::OpenOptionsExt;
use std::random::RandomSource;
use std::{fs, io};
use text::Page;

// Reads the file of that name until it ends or the buffer is full, and answers how many bytes it gave. If it can't be opened or read, a line
// on standard error says why.
pub fn fetch(rt: HostRuntime, name: &[u8], card: &mut [u8; 25377]) -> Option<usize>
    ensures { IfSome result (λ n. n ≤ 25377) }
{
    told(rt, name, read_file(rt, name, card))
}

// Reads standard input until it ends or the buffer is full. If it can't be read, a line on standard error says why: the first part of a list is
// not the list.
pub fn read_input(rt: HostRuntime, input: &mut [u8; 65537]) -> Option<usize>
    ensures { IfSome result (λ n. n ≤ 65537) }
{
    told(rt, b"standard input", read_full(&mut rt.stdin(), input))
}

// Reads the file of that name until it ends or the buffer is full.
fn read_file(rt: HostRuntime, name: &[u8], buffer: &mut [u8]) -> io::Result<usize>
    ensures { IfOk result (λ n. n ≤ length buffer.new) }
{
    let mut file = File::open(&rt, text_of(name)?)?;
    read_full(&mut file, buffer)
}

// A name as text: std names files so.
fn text_of(name: &[u8]) -> io::Result<&str> {
    str::from_utf8(name).map_err(|_| {
        io::Error::new(ErrorKind::InvalidFilename, "the name is not text in UTF-8")
    })
}

// What was done, if it was: else a line on standard error says what could not be, and why.
fn told<T>(rt: HostRuntime, name: &[u8], done: io::Result<T>) -> Option<T>
    ensures { IfSome result (λ value. done ≡ Ok value) }
{
    match done {
        Ok(value) => Some(value),
        Err(error) => {
            let mut text = [0u8; 256];
            complain(rt, name, reason(error, &mut text));
            None
        }
    }
}

// The system's words for an error: what std says of it, without the number at the end.
fn reason(error: io::Error, text: &mut [u8; 256]) -> &str {
    let end = put_error(error, text);
    match str::from_utf8(&text[..end]) {
        Ok(said) => match said.split_once(" (os error ") {
            Some((words, _)) => words,
            None => said,
        },
        Err(_) => "",
    }
}

// What std says of an error, as much of it as there is room for.
fn put_error(error: io::Error, text: &mut [u8; 256]) -> usize
    ensures { result ≤ 256 }
{
    let mut rest: &mut [u8] = text;
    let _ = write!(rest, "{error}");
    256usize.saturating_sub(rest.len())
}

// Writes a line to standard error: what it is about, a colon and the words. Where that fails too, nothing is left that could be told.
pub fn complain(rt: HostRuntime, name: &[u8], words: &str) {
    let _ = put_complaint(&mut rt.stderr(), name, words);
}

fn put_complaint<W: Write>(out: &mut W, name: &[u8], words: &str) -> io::Result<()> {
    out.write_all(name)?;
    write!(out, ": {words}\n")
}

// The name for a new file beside the one of that name, as `create_beside` asks for it.
fn put_beside(name: &[u8], beside: &mut [u8]) -> usize
    ensures printed { Printed beside.old (name.now ++ six_unknown) beside.new result }
    ensures prefix_len { IsPrefixLen result beside.new }
{
    let mut page = Page::new(beside);
    page.bytes(name);
    page.bytes(b".XXXXXX");
    page.at
}

// Writes the card to a new file beside the one of that name, and puts it in its place once the system has stored it, so that a power cut
// finds the old card there or the new one, whole. If anything fails, a line on standard error says why, and the new file is removed.
pub fn replace(rt: HostRuntime, name: &[u8], card: &[u8]) -> bool {
    let mut beside = [0u8; 4096];
    let end = put_beside(name, &mut beside);
    let done = replace_by(rt, name, card, &mut beside[..end]);
    told(rt, name, done).is_some()
}

// The same by way of a new file whose name begins as given.
fn replace_by(rt: HostRuntime, name: &[u8], card: &[u8], beside: &mut [u8]) -> io::Result<()> {
    let file = create_beside(rt, beside)?;
    let new_name = text_of(beside)?;
    let stored = keep_as(rt, file, card, new_name, name);
    if stored.is_err() {
        let _ = fs::remove_file(&rt, new_name);
    }
    stored
}

// Stores the card in the new file, and gives this the name of the old one.
fn keep_as(
    rt: HostRuntime,
    file: File,
    card: &[u8],
    new_name: &str,
    name: &[u8],
) -> io::Result<()> {
    keep(file, card)?;
    fs::rename(&rt, new_name, text_of(name)?)
}

// Writes all of the card to an open file, has the system store it, and closes the file.
fn keep(file: File, card: &[u8]) -> io::Result<()> {
    let mut open = file;
    open.write_all(card)?;
    open.sync_all()
}

// How many names are tried for a new file.
const TRIES: u32 = 238328;

// Creates a file that only its owner may read and write. Its name is the one given, with six letters in the place of the last six bytes: such
// that no file has it.
fn create_beside(rt: HostRuntime, beside: &mut [u8]) -> io::Result<File> {
    for _ in 1..TRIES {
        put_letters(rt, beside)?;
        match create_new(rt, text_of(beside)?) {
            Err(error) if error.kind() == ErrorKind::AlreadyExists => {}
            made => return made,
        }
    }
    put_letters(rt, beside)?;
    create_new(rt, text_of(beside)?)
}

fn create_new(rt: HostRuntime, name: &str) -> io::Result<File> {
    OpenOptions::new()
        .write(true)
        .create_new(true)
        .mode(0o600)
        .open(&rt, name)
}

const LETTERS: &[u8; 62] = b"abcdefghijklmnopqrstuvwxyzABCDEFGHIJKLMNOPQRSTUVWXYZ0123456789";

// Puts letters that the system chooses in the place of the last six bytes.
fn put_letters(rt: HostRuntime, beside: &mut [u8]) -> io::Result<()> {
    let mut chosen = [0u8; 6];
    rt.fill_bytes(&mut chosen)?;
    let start = beside.len().saturating_sub(6);
    for (letter, byte) in beside[start..].iter_mut().zip(chosen) {
        *letter = LETTERS[(byte % 62) as usize];
    }
    Ok(())
}
