// Trouble with the words of the command line or with the file, as it is said on standard error. A word and a path need not be
// text: their bytes are written as they are, which a runtime's own `eprint` can't do, so that standard error is passed beside it.
// Here as everywhere in the command, what a stream does not take is lost.
use std::fmt::Display;

// It was said.
#[derive(Clone, Copy, Debug, PartialEq, Eq)]
pub struct Trouble;

pub fn with_word(err: &impl Print, message: &str, word: &[u8]) -> Trouble {
    let _ = print!(err; "bogslipper: {message}: ");
    let _ = err.write_all(word);
    let _ = println!(err);
    Trouble
}

pub fn with_file(err: &impl Print, path: &[u8], message: impl Display + Drop) -> Trouble {
    let _ = print!(err; "bogslipper: ");
    let _ = err.write_all(path);
    let _ = println!(err; ": {message}");
    Trouble
}
