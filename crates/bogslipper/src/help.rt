// The help page.
use crate::trouble::Trouble;

const PAGE: &str = "\
bogslipper: reports on RTCP feedback

  bogslipper compound FILE    whether it is a compound, and each packet of it
  bogslipper nack FILE        the numbers that a generic NACK's entries name
  bogslipper twcc FILE        a TWCC block's header, and its entries with their arrivals
  bogslipper help             this page

FILE has at most 262144 bytes; - is standard input.

  --hex       FILE is hex text: two digits a byte, blanks between, comments from # on
  --skip N    leave out the first N bytes
  --take N    of the rest, take at most N

nack and twcc want the block alone. Where compound says that a packet holds one, it
starts 12 bytes behind the packet's offset and is 8 bytes less than its body.

A tick is 250 microseconds, and a delta counts from the arrival before it. unplaced is a
packet received behind an entry that can't be read: nobody knows when.

Exit status: 0 answered, 1 refused, 2 trouble with the words or the file.
";

pub fn write(stream: &impl Print) {
    let _ = stream.write_all(PAGE.as_bytes());
}

// The last line of what is said of a wrong word.
pub fn hint(err: &impl Print) -> Trouble {
    let _ = println!(err; "'bogslipper help' lists commands and options.");
    Trouble
}
