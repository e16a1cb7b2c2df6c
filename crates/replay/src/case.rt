// A case's bytes: its parts in their order, each behind its own opening, as the head of a recording lists them. A part that is not
// there is empty.
use crate::number;
use exports::Said;
use std::array;

// What the openings call the parts.
#[derive(Clone, Copy, Debug, PartialEq, Eq)]
enum Kind {
    Numbers = 1,
    Read = 2,
    Bytes = 4,
    Shorts = 5,
    Words = 6,
    Outcome = 9,
}

// A part: the width of its elements, and the bytes of them all.
#[derive(Clone, Copy, Debug, PartialEq, Eq)]
struct Part<'a> {
    width: u8,
    bytes: &'a [u8],
}

impl Part<'_> {
    // The number at a place; zeros stand behind the last.
    fn number(self, place: usize) -> u64 {
        let width = match self.width {
            1 => 1,
            2 => 2,
            4 => 4,
            _ => 8,
        };
        number::nth(self.bytes, width, place)
    }
}

// The bytes of lent memory, before the call and after it.
#[derive(Clone, Copy, Debug, PartialEq, Eq)]
pub struct Lent<'a> {
    pub before: &'a [u8],
    pub after: &'a [u8],
}

// What a call is given and lent, and the outcome that it has to have.
#[derive(Clone, Copy)]
pub struct Case<'a> {
    pub numbers: [u64; 5],
    pub read: &'a [u8],
    pub bytes: Lent<'a>,
    pub shorts: Lent<'a>,
    pub words: Lent<'a>,
    pub outcome: Said,
}

// The bytes of a case from a place on.
#[derive(Clone, Copy, Debug, PartialEq, Eq)]
struct Rest<'a>(&'a [u8]);

impl<'a> Rest<'a> {
    // Takes so many bytes, if there are that many.
    fn take(&mut self, length: usize) -> Option<&'a [u8]> {
        let (front, rest) = self.0.split_at_checked(length)?;
        self.0 = rest;
        Some(front)
    }

    // Takes a part, if the opening in front calls it so.
    fn part(&mut self, kind: Kind) -> Option<Part<'a>> {
        match *self.0 {
            [opening, high, middle, low, ..] if opening >> 4 == kind as u8 => {
                self.take(4)?;
                let length = u32::from_be_bytes([0, high, middle, low]);
                let width = opening % 16;
                let bytes = self.take(length as usize)?;
                Some(Part { width, bytes })
            }
            _ => Some(Part {
                width: 1,
                bytes: &[],
            }),
        }
    }

    // Takes a part of lent memory, which stands there twice.
    fn lent(&mut self, kind: Kind) -> Option<Lent<'a>> {
        let before = self.part(kind)?.bytes;
        let after = self.take(before.len())?;
        Some(Lent { before, after })
    }
}

impl<'a> Case<'a> {
    // The case that bytes are. It ends with its outcome.
    pub fn of(bytes: &'a [u8]) -> Option<Case<'a>> {
        let mut rest = Rest(bytes);
        let numbers = rest.part(Kind::Numbers)?;
        let read = rest.part(Kind::Read)?.bytes;
        let bytes = rest.lent(Kind::Bytes)?;
        let shorts = rest.lent(Kind::Shorts)?;
        let words = rest.lent(Kind::Words)?;
        let outcome = rest.part(Kind::Outcome)?;
        if outcome.bytes.is_empty() || !rest.0.is_empty() {
            return None;
        }
        Some(Case {
            numbers: array::from_fn(|place| numbers.number(place)),
            read,
            bytes,
            shorts,
            words,
            outcome: Said {
                number: outcome.number(0),
                values: array::from_fn(|place| outcome.number(place.saturating_add(1))),
            },
        })
    }
}
