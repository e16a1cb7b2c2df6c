// `bogslipper twcc`: a TWCC block's header, then its entries.
use arrival::{Arrival, Arrivals};
use kinds::{Seq, Tick};
use refusal::Refusal;
use std::fmt;
use std::fmt::{Display, InlineText};
use twcc::Status;
use twcc_read::Listed;

// The most statuses that a block can count.
const MOST: usize = 65535;

pub fn report(out: &impl Print, block: &[u8]) -> Result<(), Refusal> {
    let mut list = [0i32; MOST];
    let listed = twcc_read::read(block, &mut list)?;
    summary(out, listed);
    let arrivals = Arrivals::of(listed.header.time)?;
    let _ = println!(out; " number  status         delta         ticks    milliseconds");
    let count = listed.count.min(list.len());
    entries(out, &list[..count], listed.header.base, arrivals);
    Ok(())
}

// The header, and how many of the statuses that it counts are listed.
fn summary(out: &impl Print, listed: Listed) {
    let header = listed.header;
    let (base, statuses, feedback) = (header.base.0, header.statuses, header.feedback);
    let (count, time) = (listed.count, header.time.0);
    let milliseconds = 64 * u64::from(time);
    let _ = println!(out;
        "base {base}, statuses {statuses}, listed {count}, feedback {feedback}, time {time} ({milliseconds} ms)"
    );
}

fn entries(out: &impl Print, words: &[i32], base: Seq, arrivals: Arrivals) {
    let (mut number, mut arrivals) = (base, arrivals);
    for word in words {
        let met = arrivals.next(*word);
        entry(out, number, Status::of(*word), met.arrival);
        number = number.next();
        arrivals = met.next;
    }
}

fn entry(out: &impl Print, number: Seq, status: Status, arrival: Arrival<Tick>) {
    match status {
        Status::Received(delta) => match arrival {
            Arrival::At(tick) => row(out, number, "received", delta, tick.0, Milliseconds(tick)),
            _ => row(out, number, "received", delta, "unplaced", "-"),
        },
        Status::NotReceived => without(out, number, "not-received"),
        Status::Truncated => without(out, number, "truncated"),
        Status::Reserved => without(out, number, "reserved"),
        Status::NoStatus => without(out, number, "no-status"),
    }
}

// An entry that has no delta and so no arrival.
fn without(out: &impl Print, number: Seq, status: &str) {
    row(out, number, status, "-", "-", "-");
}

fn row(
    out: &impl Print,
    number: Seq,
    status: &str,
    delta: impl Display + Drop,
    ticks: impl Display + Drop,
    milliseconds: impl Display + Drop,
) {
    let number = number.0;
    let _ = println!(out; "{number:>7}  {status:<12}{delta:>8}{ticks:>14}{milliseconds:>16}");
}

// A tick in milliseconds, of which four ticks are one.
#[derive(Clone, Copy, Debug, PartialEq, Eq)]
struct Milliseconds(Tick);

impl Display for Milliseconds {
    fn fmt<W: fmt::Write>(&self, f: &mut fmt::Formatter<W>) -> fmt::Result {
        let ticks = self.0.0;
        let sign = if ticks < 0 { "-" } else { "" };
        let whole = ticks.unsigned_abs() / 4;
        let hundredths = ticks.unsigned_abs() % 4 * 25;
        // at most a sign, nineteen digits, a point and two more
        let text = InlineText::<23>::of(format_args!("{sign}{whole}.{hundredths:02}"));
        f.pad(text.as_str())
    }
}
