// The command `bogslipper`: reports on RTCP compounds, generic NACKs and TWCC blocks. It reads and prints; every answer is
// the libraries'.
#![tactic(auto)]

mod ask;
mod entries;
mod help;
mod hex;
mod input;
mod numbers;
mod packets;
mod trouble;
mod words;

use ask::Asked;
use input::{Part, Place};
use refusal::Refusal;
use std::io::Write;
use std::os::unix::fs::MetadataExt;
use std::rt::{Env, Files};
use std::{fs, io};
use trouble::Trouble;
use words::Refused;

// What becomes of a call, in the digits that the exit status is handed on in.
#[derive(Clone, Copy, Debug, PartialEq, Eq)]
enum Status {
    Answered = b'0' as isize,
    Refused = b'1' as isize,
    Trouble = b'2' as isize,
}

// The descriptor that takes the exit status, where --status asks for it: the program's own is 0.
const STATUS_FILE: &str = "/dev/fd/3";

fn main(rt: HostRuntime) {
    let err = rt.stderr();
    let asked = ask::ask(&rt, &err);
    let status = answer(&rt, &err, asked).unwrap_or(Status::Trouble);
    if asked.status {
        let _ = hand_on(&rt, status);
    }
}

// Writes the status where the descriptor is open for writing, which the mode of its link says.
fn hand_on(rt: &impl Files, status: Status) -> io::Result<()> {
    if fs::symlink_metadata(rt, STATUS_FILE)?.mode() & 0o200 == 0 {
        return Ok(());
    }
    let mut file = fs::OpenOptions::new().append(true).open(rt, STATUS_FILE)?;
    file.write_all(&[status as u8])
}

fn answer(
    rt: &(impl Env + Files + io::Input + Print),
    err: &impl Print,
    asked: Asked,
) -> Result<Status, Trouble> {
    if asked.help {
        help::write(rt);
        return Ok(Status::Answered);
    }
    if asked.wrong {
        return Err(help::hint(err));
    }
    let Some(place) = asked.command else {
        help::write(err);
        return Err(Trouble);
    };
    match asked_for(rt, err, place)? {
        Command::About(report) => about(rt, err, asked, report),
        Command::Help => {
            help::write(rt);
            Ok(Status::Answered)
        }
    }
}

#[derive(Clone, Copy, Debug, PartialEq, Eq)]
enum Report {
    Compound,
    Nack,
    Twcc,
}

#[derive(Clone, Copy, Debug, PartialEq, Eq)]
enum Command {
    About(Report),
    Help,
}

impl Command {
    fn named(word: &[u8]) -> Option<Command> {
        match word {
            b"compound" => Some(Command::About(Report::Compound)),
            b"nack" => Some(Command::About(Report::Nack)),
            b"twcc" => Some(Command::About(Report::Twcc)),
            b"help" => Some(Command::Help),
            _ => None,
        }
    }
}

// The command that an argument names.
fn asked_for(rt: &impl Env, err: &impl Print, place: usize) -> Result<Command, Trouble> {
    let mut room = ask::ROOM;
    let word = ask::argument(rt, place, &mut room);
    Command::named(word).ok_or_else(|| {
        trouble::with_word(err, "no such command", word);
        help::hint(err)
    })
}

// A report on the file that is asked for.
fn about(
    rt: &(impl Env + Files + io::Input + Print),
    err: &impl Print,
    asked: Asked,
    report: Report,
) -> Result<Status, Trouble> {
    let Some(file) = asked.file else {
        let _ = println!(err; "bogslipper: no FILE");
        return Err(help::hint(err));
    };
    let part = asked.part(rt, err)?;
    let mut path = ask::ROOM;
    let path = ask::argument(rt, file, &mut path);
    let mut room = [0u8; input::ROOM];
    let bytes = input::read(rt, err, path, part.hex, &mut room)?;
    Ok(print(rt, report, bytes, part))
}

// A report on a part of the bytes.
fn print(out: &impl Print, report: Report, bytes: &[u8], part: Part) -> Status {
    let start = part.skip.min(bytes.len());
    let rest = &bytes[start..];
    let bytes = &rest[..part.take.min(rest.len())];
    let place = Place {
        hex: part.hex,
        start,
    };
    match report {
        Report::Compound => packets::report(out, bytes, place),
        Report::Nack => ended(out, numbers::report(out, bytes)),
        Report::Twcc => ended(out, entries::report(out, bytes)),
    }
}

// The status of a report that ends at what it was refused for.
fn ended(out: &impl Print, answer: Result<(), Refusal>) -> Status {
    match answer {
        Ok(()) => Status::Answered,
        Err(r) => {
            let _ = println!(out; "{}", Refused(r));
            Status::Refused
        }
    }
}
