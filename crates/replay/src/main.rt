// Replays a recording: runs each of its cases against our code, and compares what the call says and all the memory that it was
// lent with what is recorded. The recording is the file that the first argument names; it opens with its own grammar.
#![tactic(auto)]

mod call;
mod case;
mod count;
mod hex;
mod judge;
mod memory;
mod number;
mod report;
mod room;

use count::Book;
use judge::Judged;
use std::fs::File;
use std::io::{Error, Read};
use std::rt::{Env, Files};
use std::{io, str};

// More than the bytes of a recording.
const TEXT: usize = 1048576;

// The system's longest path, with the zero behind it.
const PATH: usize = 4096;

// Where a line has its mark, behind the call's name, and where its hex.
const MARK: usize = 20;

const HEX: usize = 22;

// The system's number for bytes that are no text; by its number the system's own words are printed.
const EILSEQ: i32 = 84;

// The name of the call in front of a line. The first line's, which is none, has the row of what is entered before any call.
fn name_of(s: &[u8]) -> &[u8] {
    s.get(..MARK).unwrap_or(&[])
}

// Enters a line; a call that is over gets its row.
fn enter<'a>(rt: &impl Print, book: &mut Book<'a>, s: &'a [u8], line: usize) -> io::Result<()> {
    if s.first() == Some(&b'#') {
        return Ok(());
    }
    let name = name_of(s);
    let judged = Judged {
        mark: s.get(MARK).copied(),
        verdict: judge::judge(name, s.get(HEX..).unwrap_or(&[])),
    };
    if judged.is_read() && name != book.name {
        report::say_row(rt, book.name, book.chapter)?;
        book.turn(name);
    }
    if !judged.is_as_marked() {
        report::say_wrong(rt, line, name, judged)?;
    }
    book.enter(judged);
    Ok(())
}

// Enters all lines, as many as the first one says; where it says no number, more than there are.
fn replay<'a>(rt: &impl Print, text: &'a [u8]) -> io::Result<Book<'a>> {
    let mut lines = text.split_inclusive(|byte| *byte == b'\n');
    let mut last = lines.next().unwrap_or(&[]);
    let count = hex::six(last).map_or(usize::MAX, |count| count as usize);
    let mut book = Book::new(name_of(text));
    // Both are asked for behind the loop.
    let mut line: usize = 1;
    for next in lines.by_ref().take(count) {
        last = next;
        line = line.saturating_add(1);
        enter(rt, &mut book, without_end(last), line)?;
    }
    if line <= count || !last.ends_with(b"\n") {
        report::say_cut_short(rt, line)?;
    } else if lines.next().is_some() {
        report::say_too_long(rt, line)?;
    }
    Ok(book)
}

// A line without the end of the line.
fn without_end(line: &[u8]) -> &[u8] {
    line.strip_suffix(b"\n").unwrap_or(line)
}

fn replay_text(rt: &impl Print, text: &[u8]) -> io::Result<()> {
    report::say_head(rt)?;
    let book = replay(rt, text)?;
    report::say_row(rt, book.name, book.chapter)?;
    report::say_row(rt, b"total               ", book.total)
}

// Reads until the room is full, the file ends or a read fails, and answers what it read. A read gives as many bytes as it likes, so that
// nothing counts the turns.
fn read_full<'a>(file: &mut impl Read, room: &'a mut [u8]) -> &'a [u8] {
    let mut done = 0;
    while done < room.len() {
        match file.read(&mut room[done..]) {
            Ok(0) | Err(_) => break,
            Ok(n) => done += n,
        }
    }
    &room[..done]
}

fn replay_file(rt: &impl Print, file: &mut impl Read) -> io::Result<()> {
    let mut room = room::zeros::<TEXT>();
    let text = read_full(file, &mut room);
    if text.len() == TEXT {
        return report::say_no_room(rt);
    }
    replay_text(rt, text)
}

// Opens the file for reading; its name has to be text. The command has the like: no crate below both programs holds code of programs.
fn open_read<R: Files>(rt: &R, path: &[u8]) -> io::Result<R::File> {
    match str::from_utf8(path) {
        Ok(path) => File::open(rt, path),
        Err(_) => Err(Error::from_raw_os_error(EILSEQ)),
    }
}

fn main(rt: HostRuntime) -> io::Result<()> {
    let mut path = [0u8; PATH];
    // Where there is no such argument, or no room for it, the name is empty, and no file has that.
    let length = rt.arg(1, &mut path).unwrap_or(0);
    let name = &path[..length];
    match open_read(&rt, name) {
        Ok(mut file) => replay_file(&rt, &mut file),
        Err(error) => report::fail(&rt.stderr(), name, error),
    }
}
