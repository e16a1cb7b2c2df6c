// What the program prints: a line for whatever is wrong, and the table.
use crate::count::Counts;
use crate::judge::Judged;
use std::fmt::InlineText;
use std::io;

pub fn say_head(rt: &impl Print) -> io::Result<()> {
    println!(rt;
        "call                            cases    disagreements wrong on purpose            found"
    )
}

// A row of the table; what counts nothing has none. A name's bytes are printed as they are, and behind them each number after
// twelve blanks, however long it is.
pub fn say_row(rt: &impl Print, name: &[u8], counts: Counts) -> io::Result<()> {
    if counts == Counts::default() {
        return Ok(());
    }
    let Counts {
        cases,
        disagreements,
        wrong,
        found,
    } = counts;
    rt.write_all(name)?;
    println!(rt;
        "            {cases:>5}            {disagreements:>5}            {wrong:>5}            {found:>5}"
    )
}

// What is wrong with a line.
pub fn say_wrong(rt: &impl Print, line: usize, name: &[u8], judged: Judged) -> io::Result<()> {
    print!(rt; "line {line}: ")?;
    rt.write_all(name)?;
    println!(rt; "{judged}")
}

// What is wrong with the end, behind a line: lines are missing, or the last one is cut; or there are more.
pub fn say_cut_short(rt: &impl Print, line: usize) -> io::Result<()> {
    println!(rt; "line {line}: the recording is cut short")
}

pub fn say_too_long(rt: &impl Print, line: usize) -> io::Result<()> {
    println!(rt; "line {line}: the recording is too long")
}

pub fn say_no_room(rt: &impl Print) -> io::Result<()> {
    println!(rt; "there is no room for the recording")
}

// Says what can't be opened, and why: the system's words for the error, which stand before its number.
pub fn fail(rt: &impl Print, name: &[u8], error: io::Error) -> io::Result<()> {
    let text = InlineText::<512>::of(error);
    let text = text.as_str();
    let words = text
        .split_once(" (os error ")
        .map_or(text, |(words, _)| words);
    rt.write_all(name)?;
    println!(rt; ": {words}")
}
