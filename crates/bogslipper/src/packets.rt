// `bogslipper compound`: the first pass's verdict, then the packets that the walk finds.
ghost use Rattle.std.specs.Prelude.{◌-◌, length};
ghost use Rattle.std.specs.Iterator.{at_most};

use crate::Status;
use crate::input::Place;
use crate::words::{OrDash, Refused};
use compound::Packet;
use refusal::Refusal;
use std::fmt;

// What a packet holds that another command reads.
#[derive(Clone, Copy, Debug, PartialEq, Eq)]
enum Block {
    Nack,
    Twcc,
}

// The name of the command.
impl fmt::Display for Block {
    fn fmt<W: fmt::Write>(&self, f: &mut fmt::Formatter<W>) -> fmt::Result {
        f.pad(match *self {
            Block::Nack => "nack",
            Block::Twcc => "twcc",
        })
    }
}

pub fn report(out: &impl Print, bytes: &[u8], place: Place) -> Status {
    let passed = verdict(out, bytes, place);
    let _ = println!(out; " offset  type  name   count  length    body  padding  holds");
    let walked = walk(out, bytes);
    if passed && walked {
        Status::Answered
    } else {
        Status::Refused
    }
}

// Whether the first pass accepts the bytes.
fn verdict(out: &impl Print, bytes: &[u8], place: Place) -> bool {
    match compound::parse(bytes) {
        Ok(()) => {
            let _ = println!(out; "first pass: accepted, {} bytes", bytes.len());
            true
        }
        Err(Refusal::InvalidPadding) => {
            misfit(out, bytes, place);
            false
        }
        Err(r) => {
            let _ = println!(out; "first pass: {}", Refused(r));
            false
        }
    }
}

// What the walk meets at an offset: a packet, or why it goes no further.
#[derive(Clone, Copy, Debug, PartialEq, Eq)]
struct Step {
    at: usize,
    found: Result<Packet, Refusal>,
}

// The walk from an offset on, which ends behind a refusal.
#[derive(Clone, Copy, Debug, PartialEq, Eq)]
struct Steps<'a> {
    bytes: &'a [u8],
    at: usize,
}

impl Iterator for Steps<'_> {
    type Item = Step;

    ghost remaining = { λ s. at_most (length s.bytes.now - s.at) };

    #[tactic(auto, unfolding(compound::specs::Walk::walk_step))]
    fn next(&mut self) -> Option<Step> {
        let at = self.at;
        let walked = compound::walk_step(self.bytes, at);
        self.at = walked.next;
        let found = walked.found.transpose()?;
        Some(Step { at, found })
    }
}

impl Step {
    fn is_padded(self) -> bool {
        self.found.map_or(true, |p| 0 < p.padding)
    }
}

// The first packet that is padded, or that the walk refuses: where the first pass refuses padding, this packet's.
fn first_padded(bytes: &[u8]) -> usize {
    let mut walk = Steps { bytes, at: 0 };
    let first = walk.find(|step| step.is_padded());
    first.map_or(bytes.len(), |step| step.at)
}

// What is wrong with the padding of a packet, and how its block is read all the same.
fn misfit(out: &impl Print, bytes: &[u8], place: Place) {
    let at = first_padded(bytes);
    let packet = from(bytes, at);
    if field(utils::parse_length(packet)) < packet.len() {
        let _ = println!(out;
            "first pass: refused 5: the packet at {at} has padding and is not the last"
        );
        return;
    }
    let _ = println!(out;
        "first pass: refused 5: the packet at {at} has {}",
        PaddingCount(packet)
    );
    if let Ok(p) = compound::record_of(packet) {
        let start = place.start.saturating_add(at);
        let hex = place.hex;
        read_alone(out, packet, p, Place { hex, start });
    }
}

// The bytes from an offset on.
fn from(bytes: &[u8], at: usize) -> &[u8] {
    bytes.get(at..).unwrap_or(&[])
}

// What is wrong with the padding count of the packet in front.
#[derive(Clone, Copy, Debug, PartialEq, Eq)]
struct PaddingCount<'a>(&'a [u8]);

impl fmt::Display for PaddingCount<'_> {
    fn fmt<W: fmt::Write>(&self, f: &mut fmt::Formatter<W>) -> fmt::Result {
        let count = padding_count(self.0);
        let wrong = match count {
            0 => "",
            _ if count % 4 != 0 => ", which is not a multiple of 4",
            _ => ", which is above its length less 4",
        };
        write!(f, "padding count {count}{wrong}")
    }
}

// How the block in the last packet is read all the same, from the same FILE, where its padding count is wrong only in being no
// multiple of 4. `place` is that of the packet.
fn read_alone(out: &impl Print, packet: &[u8], p: Packet, place: Place) {
    if p.padding % 4 == 0 || p.body < 8 {
        return;
    }
    if let Some(block) = block_in(packet) {
        let hex = if place.hex { " --hex" } else { "" };
        let skip = place.start.saturating_add(12);
        let take = p.body - 8;
        let _ = println!(out;
            "its block alone: bogslipper {block}{hex} --skip {skip} --take {take} FILE"
        );
    }
}

// The packets in turn, up to the end or a refusal; whether it was the end.
fn walk(out: &impl Print, bytes: &[u8]) -> bool {
    for step in (Steps { bytes, at: 0 }) {
        match step.found {
            Ok(p) => row(out, compound::walk_part(bytes, step.at), p),
            Err(r) => {
                stopped(out, bytes, step.at, r);
                return false;
            }
        }
    }
    true
}

// Why the walk ended. A packet that is whole, and refused for its padding alone, has no row: its fields are said here.
fn stopped(out: &impl Print, bytes: &[u8], at: usize, r: Refusal) {
    if r != Refusal::InvalidPadding {
        let _ = println!(out; "walk at {at}: {}", Refused(r));
        return;
    }
    let packet = from(bytes, at);
    let kind = field(utils::parse_packet_type(packet));
    let count = field(utils::parse_count(packet));
    let length = field(utils::parse_length(packet));
    let _ = println!(out;
        "walk at {at}: refused 5: type {kind}, count {count}, length {length}, {}",
        PaddingCount(packet)
    );
}

// A packet that the walk found, and its record.
fn row(out: &impl Print, packet: &[u8], p: Packet) {
    let kind = field(utils::parse_packet_type(packet));
    let name = OrDash(name(kind));
    let count = field(utils::parse_count(packet));
    let padding = Some(p.padding).filter(|count| 0 < *count);
    let _ = println!(out;
        "{:>7}{kind:>6}  {name:<5}{count:>7}{:>8}{:>8}{:>9}  {}",
        p.start,
        p.length,
        p.body,
        OrDash(padding),
        OrDash(block_in(packet))
    );
}

// A field of a packet that the walk found, which has its header.
fn field(read: Result<usize, Refusal>) -> usize {
    read.unwrap_or(0)
}

// The type's name in the register of RTCP packet types.
fn name(kind: usize) -> Option<&'static str> {
    match kind {
        200 => Some("SR"),
        201 => Some("RR"),
        202 => Some("SDES"),
        203 => Some("BYE"),
        204 => Some("APP"),
        205 => Some("RTPFB"),
        206 => Some("PSFB"),
        207 => Some("XR"),
        _ => None,
    }
}

// The last byte of a packet with the padding bit, else 0.
fn padding_count(packet: &[u8]) -> u8 {
    utils::parse_padding(packet).ok().flatten().unwrap_or(0)
}

// The block that stands from byte 12 of a feedback packet on, whose count is its format.
fn block_in(packet: &[u8]) -> Option<Block> {
    if field(utils::parse_packet_type(packet)) != 205 {
        return None;
    }
    match field(utils::parse_count(packet)) {
        1 => Some(Block::Nack),
        15 => Some(Block::Twcc),
        _ => None,
    }
}
