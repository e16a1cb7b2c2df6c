// The refusals of this library, numbered as docs/RULES.md numbers them: the error of every `Result`.
#![tactic(auto)]

ghost use Rattle.refusal.specs.Told.{Tells};

use std::error::Error;
use std::fmt;

#[derive(Clone, Copy, Debug, PartialEq, Eq)]
pub enum Refusal {
    Truncated { expected: usize, actual: usize },
    UnsupportedVersion(u8),
    PacketTypeMismatch { actual: u8, requested: u8 },
    TooLarge { expected: usize, actual: usize },
    InvalidPadding,
    CountOutOfRange(u8),
    UnevenPadding(u8),
    ReferenceTimeTooLarge(u32),
    BodyLength(usize),
    StatusOutOfRange(usize),
    ListTooLong(usize),
    LimitTooSmall(usize),
    OutputTooSmall { needed: usize, present: usize },
    StoreLength(usize),
    LeastLength(usize),
}

// A refusal in words, with its values.
impl fmt::Display for Refusal {
    ghost use Rattle.std.specs.Prelude.{Some};
    ghost use Rattle.refusal.specs.Words.{words};

    ghost output = { λ r. Some (words r) };

    fn fmt<W: fmt::Write>(&self, f: &mut fmt::Formatter<W>) -> fmt::Result {
        match *self {
            Refusal::Truncated { expected, actual } => {
                write!(f, "bytes too short: {expected} expected, {actual} present")
            }
            Refusal::UnsupportedVersion(version) => {
                write!(f, "version {version} where 2 is expected")
            }
            Refusal::PacketTypeMismatch { actual, requested } => {
                write!(f, "packet type {actual} where {requested} is requested")
            }
            Refusal::TooLarge { expected, actual } => {
                write!(f, "bytes too many: {expected} expected, {actual} present")
            }
            Refusal::InvalidPadding => {
                write!(
                    f,
                    "padding before the last packet, or a padding count that does not fit"
                )
            }
            Refusal::CountOutOfRange(count) => write!(f, "count {count} is above 31"),
            Refusal::UnevenPadding(padding) => {
                write!(f, "padding of {padding} bytes is not a multiple of 4")
            }
            Refusal::ReferenceTimeTooLarge(time) => {
                write!(f, "reference time {time} is above 16777215")
            }
            Refusal::BodyLength(size) => write!(
                f,
                "body of {size} bytes is not a multiple of 4 or makes a packet above 262144 bytes"
            ),
            Refusal::StatusOutOfRange(place) => {
                write!(f, "status word at place {place} is out of range")
            }
            Refusal::ListTooLong(size) => write!(f, "list of {size} entries is above 16384"),
            Refusal::LimitTooSmall(limit) => write!(f, "size limit {limit} is below 8"),
            Refusal::OutputTooSmall { needed, present } => {
                write!(f, "output lacks room: {needed} needed, {present} present")
            }
            Refusal::StoreLength(size) => {
                write!(f, "NACK store of {size} bytes is not 8192 bytes")
            }
            Refusal::LeastLength(least) => {
                write!(f, "least length {least} is outside 4 to 262144")
            }
        }
    }
}

impl Error for Refusal {}

// A refusal as plain numbers, for callers in other languages: its number and its values, 0 for a value that it lacks.
#[derive(Clone, Copy, Debug, PartialEq, Eq)]
pub struct Told {
    pub number: u64,
    pub first: u64,
    pub second: u64,
}

impl From<Refusal> for Told {
    ghost from_gives = { Tells };

    fn from(r: Refusal) -> Told {
        match r {
            Refusal::Truncated { expected, actual } => Told {
                number: 1,
                first: expected as u64,
                second: actual as u64,
            },
            Refusal::UnsupportedVersion(version) => Told {
                number: 2,
                first: version as u64,
                second: 0,
            },
            Refusal::PacketTypeMismatch { actual, requested } => Told {
                number: 3,
                first: actual as u64,
                second: requested as u64,
            },
            Refusal::TooLarge { expected, actual } => Told {
                number: 4,
                first: expected as u64,
                second: actual as u64,
            },
            Refusal::InvalidPadding => Told {
                number: 5,
                first: 0,
                second: 0,
            },
            Refusal::CountOutOfRange(count) => Told {
                number: 8,
                first: count as u64,
                second: 0,
            },
            Refusal::UnevenPadding(padding) => Told {
                number: 9,
                first: padding as u64,
                second: 0,
            },
            Refusal::ReferenceTimeTooLarge(time) => Told {
                number: 10,
                first: time as u64,
                second: 0,
            },
            Refusal::BodyLength(size) => Told {
                number: 11,
                first: size as u64,
                second: 0,
            },
            Refusal::StatusOutOfRange(place) => Told {
                number: 12,
                first: place as u64,
                second: 0,
            },
            Refusal::ListTooLong(size) => Told {
                number: 13,
                first: size as u64,
                second: 0,
            },
            Refusal::LimitTooSmall(limit) => Told {
                number: 14,
                first: limit as u64,
                second: 0,
            },
            Refusal::OutputTooSmall { needed, present } => Told {
                number: 15,
                first: needed as u64,
                second: present as u64,
            },
            Refusal::StoreLength(size) => Told {
                number: 16,
                first: size as u64,
                second: 0,
            },
            Refusal::LeastLength(least) => Told {
                number: 17,
                first: least as u64,
                second: 0,
            },
        }
    }
}
