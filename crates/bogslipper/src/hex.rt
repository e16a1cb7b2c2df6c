// Hex text: two digits a byte, with blanks and line ends anywhere between digits; from a '#' on, the rest of a line is a
// comment.
use std::fmt;

// What is wrong with a text.
#[derive(Clone, Copy, Debug, PartialEq, Eq)]
pub enum Flaw {
    NoDigit { line: u64, byte: u8 },
    Odd,
}

// A byte is shown as a character, or as its number where it has none.
impl fmt::Display for Flaw {
    fn fmt<W: fmt::Write>(&self, f: &mut fmt::Formatter<W>) -> fmt::Result {
        match *self {
            Flaw::NoDigit { line, byte } => match byte {
                b'!'..=b'~' => write!(f, "line {line}: '{}' is no hex digit", char::from(byte)),
                _ => write!(f, "line {line}: byte {byte} is no hex digit"),
            },
            Flaw::Odd => write!(f, "an odd number of hex digits"),
        }
    }
}

// Where the decoding stands: the line, whether its rest is a comment, and the first digit of a byte whose second is to come.
#[derive(Clone, Copy, Debug, PartialEq, Eq)]
struct Place {
    line: u64,
    comment: bool,
    high: Option<u8>,
}

impl Place {
    // Moves past a byte of the text. Answers the byte that ended with it, if one did.
    fn pass(&mut self, byte: u8) -> Result<Option<u8>, Flaw> {
        match byte {
            b'\n' => {
                self.line = self.line.wrapping_add(1);
                self.comment = false;
                Ok(None)
            }
            _ if self.comment => Ok(None),
            b'#' => {
                self.comment = true;
                Ok(None)
            }
            b' ' | b'\t' | b'\r' => Ok(None),
            _ => match char::from(byte).to_digit(16) {
                Some(digit) => Ok(self.join(digit as u8)),
                None => Err(Flaw::NoDigit {
                    line: self.line,
                    byte,
                }),
            },
        }
    }

    // The byte that a digit ends, or none where it is the first of two.
    fn join(&mut self, digit: u8) -> Option<u8> {
        match self.high.take() {
            Some(high) => Some(high << 4 | digit),
            None => {
                self.high = Some(digit);
                None
            }
        }
    }
}

// The bytes that a text stands for. They are put in place of those of the text that were passed.
pub fn decode(text: &mut [u8]) -> Result<&[u8], Flaw> {
    let mut place = Place {
        line: 1,
        comment: false,
        high: None,
    };
    let mut have = 0;
    for i in 0..text.len() {
        if let Some(byte) = place.pass(text[i])? {
            text[have] = byte;
            have += 1;
        }
    }
    match place.high {
        Some(_) => Err(Flaw::Odd),
        None => Ok(&text[..have]),
    }
}
