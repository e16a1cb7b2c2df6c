// The verdict on a line: what our code does otherwise than the line says.
use crate::case::Case;
use crate::memory::Memory;
use crate::{call, hex, memory, room};
use exports::Said;
use std::fmt;

// More than the bytes of a case.
const CASE: usize = 655360;

// What a case lends: it holds that twice, before the call and after it, so that half as many bytes are always enough.
const BYTES: usize = 327680;

const SHORTS: usize = 163840;

const WORDS: usize = 81920;

// Our code does what the line says; it says another number, or another value; it leaves other memory; or the line can't be read.
#[derive(Clone, Copy, Debug, PartialEq, Eq)]
pub enum Verdict {
    Agrees,
    Number,
    Value,
    Memory,
    Unreadable,
}

// The letters of the marks, and the one for what no mark says: that a line can't be read.
impl From<Verdict> for u8 {
    fn from(verdict: Verdict) -> u8 {
        match verdict {
            Verdict::Agrees => b'=',
            Verdict::Number => b'n',
            Verdict::Value => b'v',
            Verdict::Memory => b'm',
            Verdict::Unreadable => b'?',
        }
    }
}

// A line's mark, if it has one, and the verdict on it.
#[derive(Clone, Copy, Debug, PartialEq, Eq)]
pub struct Judged {
    pub mark: Option<u8>,
    pub verdict: Verdict,
}

impl Judged {
    // Whether the line says what our code has to do. Any other line is wrong on purpose.
    pub fn is_case(self) -> bool {
        self.mark == Some(u8::from(Verdict::Agrees))
    }

    pub fn is_as_marked(self) -> bool {
        self.mark == Some(u8::from(self.verdict))
    }

    pub fn is_read(self) -> bool {
        self.verdict != Verdict::Unreadable
    }
}

// What is wrong with a line that is not as it is marked.
impl fmt::Display for Judged {
    fn fmt<W: fmt::Write>(&self, f: &mut fmt::Formatter<W>) -> fmt::Result {
        f.write_str(match self.verdict {
            Verdict::Unreadable => "can't be read",
            _ if !self.is_case() => "is wrong on purpose, and not found out",
            Verdict::Number => "says another number",
            Verdict::Value => "says another value",
            _ => "leaves other memory",
        })
    }
}

// The verdict on what a call said, and on whether it left the memory that it had to leave.
fn compared(outcome: Said, said: Said, left: bool) -> Verdict {
    if said.number != outcome.number {
        Verdict::Number
    } else if said.values != outcome.values {
        Verdict::Value
    } else if !left {
        Verdict::Memory
    } else {
        Verdict::Agrees
    }
}

// Runs a call on memory of the lengths that it is lent.
fn run(name: &[u8], case: &Case<'_>) -> Option<Verdict> {
    let mut bytes = [0u8; BYTES];
    let mut shorts = [0u16; SHORTS];
    let mut words = [0i32; WORDS];
    let bytes = memory::lend(&mut bytes, case.bytes.before.len(), case.bytes.before);
    let shorts = memory::lend(
        &mut shorts,
        case.shorts.before.len() / 2,
        case.shorts.before,
    );
    let words = memory::lend(&mut words, case.words.before.len() / 4, case.words.before);
    let lent = Memory {
        bytes: &mut *bytes,
        shorts: &mut *shorts,
        words: &mut *words,
    };
    let said = call::said(name, case.numbers, case.read, lent)?;
    let left = memory::opens_with(case.bytes.after, bytes)
        && memory::opens_with(case.shorts.after, shorts)
        && memory::opens_with(case.words.after, words);
    Some(compared(case.outcome, said, left))
}

fn judge_text(name: &[u8], text: &[u8]) -> Option<Verdict> {
    let mut room = room::zeros::<CASE>();
    let case = Case::of(hex::unpack(text, &mut room)?)?;
    run(name, &case)
}

// Judges the line of a call.
pub fn judge(name: &[u8], text: &[u8]) -> Verdict {
    judge_text(name, text).unwrap_or(Verdict::Unreadable)
}
