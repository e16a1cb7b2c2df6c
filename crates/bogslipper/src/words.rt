// Refusals in words.
use refusal::{Refusal, Told};
use std::fmt;

// "refused 15: output lacks room: 8 needed, 4 present": the number, what it means, and its values.
#[derive(Clone, Copy, Debug, PartialEq, Eq)]
pub struct Refused(pub Refusal);

impl fmt::Display for Refused {
    fn fmt<W: fmt::Write>(&self, f: &mut fmt::Formatter<W>) -> fmt::Result {
        let told = Told::from(self.0);
        write!(f, "refused {}: {}", told.number, self.0)
    }
}

// A value in its column, or a dash where there is none.
#[derive(Clone, Copy, Debug, PartialEq, Eq)]
pub struct OrDash<T>(pub Option<T>);

impl<T: fmt::Display> fmt::Display for OrDash<T> {
    fn fmt<W: fmt::Write>(&self, f: &mut fmt::Formatter<W>) -> fmt::Result {
        match &self.0 {
            Some(value) => value.fmt(f),
            None => f.pad("-"),
        }
    }
}
