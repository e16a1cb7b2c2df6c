// Runs the fixed examples of docs/RULES.md that are not marked P, in its order, and prints what each call answers.
#![tactic(auto)]

use arrival::{Arrival, Arrivals};
use compound::Packet;
use kinds::{RefTime, Seq, Tick};
use refusal::{Refusal, Told};
use std::fmt::Display;
use std::io;

fn say_refused(rt: &impl Print, r: Refusal) -> io::Result<()> {
    let told = Told::from(r);
    println!(rt; " refused {}: {} {}", told.number, told.first, told.second)
}

// The answer of a test, which is these words where nothing is refused.
fn say_test(
    rt: &impl Print,
    label: &str,
    answer: Result<(), Refusal>,
    fine: &str,
) -> io::Result<()> {
    print!(rt; "{label}")?;
    match answer {
        Ok(()) => println!(rt; " {fine}"),
        Err(r) => say_refused(rt, r),
    }
}

fn say_parse(rt: &impl Print, label: &str, bytes: &[u8]) -> io::Result<()> {
    say_test(rt, label, compound::parse(bytes), "parses")
}

fn say_record(rt: &impl Print, label: &str, packet: &[u8], p: Packet) -> io::Result<()> {
    say_test(rt, label, compound::check_record(packet, p), "is of them")
}

// In hex; numbers, below, as they are.
fn say_bytes(rt: &impl Print, bytes: &[u8]) -> io::Result<()> {
    for byte in bytes {
        print!(rt; " {byte:02x}")?;
    }
    println!(rt)
}

fn say_numbers<N: Display>(rt: &impl Print, numbers: &[N]) -> io::Result<()> {
    for number in numbers {
        print!(rt; " {number}")?;
    }
    println!(rt)
}

// The bytes that the set of two numbers is written as.
fn say_nack_write(rt: &impl Print, label: &str, first: Seq, second: Seq) -> io::Result<()> {
    print!(rt; "{label}")?;
    let mut store = [0u8; 8192];
    let _ = nack_store::add(&mut store, first);
    let _ = nack_store::add(&mut store, second);
    let mut out = [0u8; 8];
    match nack_write::write(&store, &mut out) {
        Ok(n) => say_bytes(rt, &out[..n.min(out.len())]),
        Err(r) => say_refused(rt, r),
    }
}

// The numbers that bytes name.
fn say_nack_read(rt: &impl Print, label: &str, bytes: &[u8]) -> io::Result<()> {
    print!(rt; "{label}")?;
    let mut list = [0u16; 3];
    match nack_read::read(bytes, &mut list) {
        Ok(n) => say_numbers(rt, &list[..n.min(list.len())]),
        Err(r) => say_refused(rt, r),
    }
}

// The block of a list at base 1, time 0 and feedback count 0.
fn say_block(rt: &impl Print, label: &str, list: &[i32], limit: Option<usize>) -> io::Result<()> {
    print!(rt; "{label}")?;
    let mut out = [0u8; 24];
    match twcc_write::write(Seq(1), RefTime(0), 0, list, limit, &mut out) {
        Ok(used) => {
            print!(rt; " takes {}:", used.taken)?;
            say_bytes(rt, &out[..used.bytes.min(out.len())])
        }
        Err(r) => say_refused(rt, r),
    }
}

// What a block reads as: the base, then the words.
fn say_twcc_read(rt: &impl Print, label: &str, block: &[u8]) -> io::Result<()> {
    print!(rt; "{label}")?;
    let mut list = [0i32; 2];
    match twcc_read::read(block, &mut list) {
        Ok(listed) => {
            print!(rt; " from {}:", listed.header.base.0)?;
            say_numbers(rt, &list[..listed.count.min(list.len())])
        }
        Err(r) => say_refused(rt, r),
    }
}

fn say_begun(rt: &impl Print, label: &str, time: RefTime) -> io::Result<()> {
    let answer = Arrivals::of(time).map(|_| ());
    say_test(rt, label, answer, "begins")
}

// The entry of a word behind a tick.
fn say_arrival(rt: &impl Print, label: &str, tick: Tick, word: i32) -> io::Result<()> {
    let arrivals = Arrivals { from: Some(tick) };
    match arrivals.next(word).arrival {
        Arrival::At(tick) => println!(rt; "{label} arrived at {}", tick.0),
        Arrival::Unplaced => println!(rt; "{label} is unplaced"),
        _ => println!(rt; "{label} is another"),
    }
}

fn blocks_written(rt: &impl Print) -> io::Result<()> {
    println!(rt; "TWCC, writing")?;
    let lost = [32768i32; 8192];
    say_block(rt, "8,192 not received", &lost, None)?;
    say_block(rt, "delta 256", &[256], None)?;
    say_block(rt, "delta -1", &[-1], None)?;
    let large = [256i32; 8];
    say_block(rt, "8 large, limit 24", &large, Some(24))
}

fn blocks_read(rt: &impl Print) -> io::Result<()> {
    println!(rt; "TWCC, reading")?;
    say_twcc_read(
        rt,
        "00 05 00 01 00 00 00 00 20 00 20 01 09",
        b"\x00\x05\x00\x01\x00\x00\x00\x00\x20\x00\x20\x01\x09",
    )
}

fn arrivals(rt: &impl Print) -> io::Result<()> {
    println!(rt; "Arrivals")?;
    say_begun(rt, "time 16777215", RefTime(16777215))?;
    say_begun(rt, "time 16777216", RefTime(16777216))?;
    say_arrival(rt, "delta 1 behind 2^53 - 2", Tick(9007199254740990), 1)?;
    say_arrival(rt, "delta 1 behind 2^53 - 1", Tick(9007199254740991), 1)?;
    say_arrival(rt, "delta -1 behind 2^53", Tick(9007199254740992), -1)?;
    say_arrival(rt, "delta 32767 behind 2^63 - 1", Tick(i64::MAX), 32767)?;
    say_arrival(rt, "delta -32768 behind -2^63", Tick(i64::MIN), -32768)
}

fn nacks(rt: &impl Print) -> io::Result<()> {
    println!(rt; "Generic NACK")?;
    say_nack_write(rt, "{65535, 0}:", Seq(65535), Seq(0))?;
    say_nack_read(rt, "00 0A 00 03 FF:", b"\x00\x0a\x00\x03\xff")
}

fn compounds(rt: &impl Print) -> io::Result<()> {
    println!(rt; "Compounds")?;
    say_parse(
        rt,
        "80 CB 00 00 40 CB 00 00",
        b"\x80\xcb\x00\x00\x40\xcb\x00\x00",
    )?;
    say_parse(
        rt,
        "A0 CB 00 00 80 CB 00 00",
        b"\xa0\xcb\x00\x00\x80\xcb\x00\x00",
    )?;
    say_parse(rt, "80 CB 00 01", b"\x80\xcb\x00\x01")?;
    say_parse(rt, "80 CB 00 00 80", b"\x80\xcb\x00\x00\x80")?;
    say_parse(rt, "00 CB 00 01", b"\x00\xcb\x00\x01")?;
    say_parse(
        rt,
        "A0 CB 00 01 00 00 00 04",
        b"\xa0\xcb\x00\x01\x00\x00\x00\x04",
    )?;
    say_parse(
        rt,
        "A0 CB 00 01 00 00 00 02",
        b"\xa0\xcb\x00\x01\x00\x00\x00\x02",
    )
}

fn record(length: usize, body: usize, padding: usize) -> Packet {
    Packet {
        start: 0,
        length,
        body,
        padding,
    }
}

fn records(rt: &impl Print) -> io::Result<()> {
    println!(rt; "Packet records")?;
    say_record(
        rt,
        "A0 CB 00 01 00 00 00 02, body 2, padding 2",
        b"\xa0\xcb\x00\x01\x00\x00\x00\x02",
        record(8, 2, 2),
    )?;
    say_record(
        rt,
        "80 CB 00 00, length 8, body 4",
        b"\x80\xcb\x00\x00",
        record(8, 4, 0),
    )?;
    say_record(
        rt,
        "80 CB 00 00, body 2^64 - 1, padding 1",
        b"\x80\xcb\x00\x00",
        record(4, usize::MAX, 1),
    )
}

fn main(rt: HostRuntime) -> io::Result<()> {
    blocks_written(&rt)?;
    blocks_read(&rt)?;
    arrivals(&rt)?;
    nacks(&rt)?;
    compounds(&rt)?;
    records(&rt)
}

#[cfg(test)]
mod tests;
