// What a report is about: the bytes of a file or of standard input.
use crate::trouble::Trouble;
use crate::{hex, trouble};
use std::fmt::InlineText;
use std::io::{Error, ErrorKind, Read};
use std::rt::Files;
use std::{fs, io, str};

// The largest file that is read: as long as the longest packet.
const MOST: usize = 262144;

// One place more, so that a larger file is noticed.
pub const ROOM: usize = MOST + 1;

// Which part of FILE a report is about: whether it is hex text, how many of its bytes are left out, and how many of the rest
// are taken at most.
#[derive(Clone, Copy, Debug, PartialEq, Eq)]
pub struct Part {
    pub hex: bool,
    pub skip: usize,
    pub take: usize,
}

// Where the bytes of a report stand: whether FILE is hex text, and how many of its bytes come before them.
#[derive(Clone, Copy, Debug, PartialEq, Eq)]
pub struct Place {
    pub hex: bool,
    pub start: usize,
}

// The bytes of a file, or of standard input where its name is "-", in the front of `room`.
pub fn read<'a>(
    rt: &(impl Files + io::Input),
    err: &impl Print,
    path: &[u8],
    hex: bool,
    room: &'a mut [u8],
) -> Result<&'a [u8], Trouble> {
    let bytes = match fill(rt, path, room) {
        Ok(bytes) => bytes,
        Err(e) => return Err(failed(err, path, e)),
    };
    if MOST < bytes.len() {
        return Err(trouble::with_file(err, path, "larger than 262144 bytes"));
    }
    if hex {
        return hex::decode(bytes).map_err(|flaw| trouble::with_file(err, path, flaw));
    }
    Ok(bytes)
}

fn fill<'a>(
    rt: &(impl Files + io::Input),
    path: &[u8],
    room: &'a mut [u8],
) -> io::Result<&'a mut [u8]> {
    match path {
        b"-" => fill_from(&mut rt.reader(), room),
        _ => fill_from(&mut open(rt, path)?, room),
    }
}

// As the replay opens its recording, says an error and reads to the end: no crate below both programs holds code of programs.
fn open<R: Files>(rt: &R, path: &[u8]) -> io::Result<R::File> {
    match str::from_utf8(path) {
        Ok(path) => fs::open(rt, path),
        Err(_) => Err(Error::new(ErrorKind::InvalidFilename, "a name that is not UTF-8")),
    }
}

// Reads until the room is full or the file ends, and answers what it read. A read gives as many bytes as it likes, so that nothing counts the
// turns.
fn fill_from<'a>(file: &mut impl Read, room: &'a mut [u8]) -> io::Result<&'a mut [u8]> {
    let mut size = 0;
    while size < room.len() {
        match file.read(&mut room[size..])? {
            0 => break,
            n => size += n,
        }
    }
    Ok(&mut room[..size])
}

// Says the system's words for an error, without its number behind them.
fn failed(err: &impl Print, path: &[u8], e: Error) -> Trouble {
    let text = InlineText::<128>::of(e);
    let text = text.as_str();
    let words = text
        .split_once(" (os error ")
        .map_or(text, |(words, _)| words);
    trouble::with_file(err, path, words)
}
