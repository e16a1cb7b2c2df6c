// What the command line asks for.
use crate::input::Part;
use crate::trouble::Trouble;
use crate::{input, trouble};
use std::env::FillError;
use std::rt::Env;
use std::str;

// Room for the longest argument that is taken.
pub const ROOM: [u8; 4096] = [0; 4096];

// The largest number that an argument gives.
const MOST: usize = 9999999;

// Which arguments are the command, its file and the numbers of --skip and --take, and which flags are there; whether an
// argument was wrong, beside the flags, since --help and --status hold all the same.
#[derive(Clone, Copy, Debug, Default, PartialEq, Eq)]
pub struct Asked {
    pub command: Option<usize>,
    pub file: Option<usize>,
    skip: Option<usize>,
    take: Option<usize>,
    hex: bool,
    pub help: bool,
    pub status: bool,
    pub wrong: bool,
}

pub fn ask(rt: &impl Env, err: &impl Print) -> Asked {
    let mut asked = Asked::default();
    // The runtime gives arguments by their number alone.
    for i in 1..usize::MAX {
        let mut room = ROOM;
        match rt.arg(i, &mut room) {
            Ok(n) => asked.argument(err, i, &room[..n]),
            Err(FillError::TooLong) => {
                let _ = println!(err; "bogslipper: an argument above 4096 bytes");
                asked.wrong = true;
            }
            Err(FillError::NotPresent) => break,
        }
    }
    asked
}

impl Asked {
    fn argument(&mut self, err: &impl Print, i: usize, word: &[u8]) {
        if self.skip != Some(i) && self.take != Some(i) {
            self.word(err, i, word);
        }
    }

    // A word that is no number of --skip or --take.
    fn word(&mut self, err: &impl Print, i: usize, word: &[u8]) {
        match word {
            b"--hex" => self.hex = true,
            b"--skip" => self.skip = i.checked_add(1),
            b"--take" => self.take = i.checked_add(1),
            b"--status" => self.status = true,
            b"--help" | b"-h" => self.help = true,
            [b'-', _, ..] => self.refuse(err, "no such option", word),
            _ => self.plain(err, i, word),
        }
    }

    fn plain(&mut self, err: &impl Print, i: usize, word: &[u8]) {
        if self.command.is_none() {
            self.command = Some(i);
        } else if self.file.is_none() {
            self.file = Some(i);
        } else {
            self.refuse(err, "one word too many", word);
        }
    }

    fn refuse(&mut self, err: &impl Print, message: &str, word: &[u8]) {
        trouble::with_word(err, message, word);
        self.wrong = true;
    }

    // The part of FILE that is asked for.
    pub fn part(&self, rt: &impl Env, err: &impl Print) -> Result<Part, Trouble> {
        Ok(Part {
            hex: self.hex,
            skip: number(rt, err, self.skip, 0)?,
            take: number(rt, err, self.take, input::ROOM)?,
        })
    }
}

// The argument at a place; empty where there is none.
pub fn argument<'a>(rt: &impl Env, place: usize, room: &'a mut [u8]) -> &'a [u8] {
    let n = rt.arg(place, room).unwrap_or(0);
    &room[..n]
}

// The number that an argument gives, or another where there is no such argument.
fn number(
    rt: &impl Env,
    err: &impl Print,
    place: Option<usize>,
    otherwise: usize,
) -> Result<usize, Trouble> {
    let Some(place) = place else {
        return Ok(otherwise);
    };
    let mut room = ROOM;
    let word = argument(rt, place, &mut room);
    decimal(word).ok_or_else(|| {
        trouble::with_word(
            err,
            "--skip and --take want a number of bytes, at most 9999999, and not",
            word,
        )
    })
}

// A decimal number. Digits alone: `parse` takes a sign too.
fn decimal(word: &[u8]) -> Option<usize> {
    if !word.iter().all(|byte| byte.is_ascii_digit()) {
        return None;
    }
    let number: usize = str::from_utf8(word).ok()?.parse().ok()?;
    if number <= MOST { Some(number) } else { None }
}
