// Several packets laid end to end (compound.rs): the first pass over them, and the step of the walk from packet to packet.
#![tactic(auto)]

ghost use Rattle.std.specs.Prelude.{◌≡◌, ◌+◌, ◌*◌, ◌<◌, ◌≤◌, length, drop};
ghost use Rattle.refusal.specs.Said.{said};
ghost use Rattle.utils.specs.Header.{length_of};
ghost use Rattle.utils.specs.Check.{last_byte_of, padding_fits};
ghost use Rattle.compound.specs.Pass.{first_turn, first_pass};
ghost use Rattle.compound.specs.Record.{padding_of, misfits, record_at, check_record, own_record};
ghost use Rattle.compound.specs.Walk.{walk_step, met_of, walk_next, HandsBack};
ghost use Rattle.compound.specs.Said.{said_walked};
ghost use Rattle.compound.specs.Inner.{is_padded, is_usual, said_turn};

use refusal::Refusal;

// A packet within the bytes: where it starts, how long it is, and how its bytes are shared out: the header's four, the body,
// the padding. In every record that is made here 4 + body + padding is the length. The type does not keep that: `check_record`
// answers for every record, whoever made it.
#[derive(Clone, Copy, Debug, PartialEq, Eq)]
pub struct Packet {
    pub start: usize,
    pub length: usize,
    pub body: usize,
    pub padding: usize,
}

// What the walk finds at an offset, `None` where it is over, and where it goes on.
#[derive(Clone, Copy, Debug, PartialEq, Eq)]
pub struct Walked {
    pub found: Result<Option<Packet>, Refusal>,
    pub next: usize,
}

// The bytes of one packet, as many as its length field says.
#[derive(Clone, Copy, Debug, PartialEq, Eq)]
struct OwnBytes<'a> {
    bytes: &'a [u8],
    ghost size: { length bytes.now ≡ length_of bytes.now },
}

impl<'a> OwnBytes<'a> {
    fn is_padded(self) -> bool
        ensures { result ≡ is_padded self.entry.bytes.now }
    {
        self.bytes[0] / 32 % 2 != 0
    }

    // The last byte, which counts the padding where there is any.
    fn count(self) -> usize
        ensures { result ≡ last_byte_of self.entry.bytes.now }
    {
        usize::from(self.bytes[self.bytes.len() - 1])
    }

    // Whether the padding count fits: a multiple of four, behind the header.
    #[tactic(auto, unfolding(utils::specs::Check::padding_fits))]
    fn padding_fits(self) -> bool
        ensures { result ≡ padding_fits self.entry.bytes.now }
    {
        let count = self.count();
        count != 0 && count % 4 == 0 && count <= self.bytes.len() - 4
    }

    // Whether it is padded by a count that does not fit.
    #[tactic(auto, unfolding(crate::specs::Record::misfits))]
    fn misfits(self) -> bool
        ensures { result ≡ misfits self.entry.bytes.now }
    {
        self.is_padded() && !self.padding_fits()
    }

    // How many bytes of padding it has: the one place where this is worked out.
    #[tactic(auto, unfolding(crate::specs::Record::padding_of))]
    fn padding(self) -> usize
        ensures { result ≡ padding_of self.entry.bytes.now }
    {
        if self.is_padded() { self.count() } else { 0 }
    }

    // Its record, where it starts at an offset. Padding that leaves no header leaves no body, and the record does not add up.
    fn record(self, start: usize) -> Packet
        ensures { result ≡ record_at start self.entry.bytes.now }
    {
        let length = self.bytes.len();
        let padding = self.padding();
        Packet {
            start,
            length,
            body: (length - 4).saturating_sub(padding),
            padding,
        }
    }
}

// A turn of the first pass, at a packet whose header is there. The pass counts in words of four bytes, since every packet is whole
// words long.
#[derive(Clone, Copy, Debug, PartialEq, Eq)]
struct Turn<'a> {
    bytes: &'a [u8],
    word: usize,
    ghost header: { 4 * word + 4 ≤ length bytes.now },
}

impl<'a> Turn<'a> {
    // The tests at the packet, in their order, and the word at which the next packet starts.
    #[tactic(auto, using(crate::proofs::Record::front), unfolding(crate::specs::Pass::first_turn))]
    fn tested(self) -> Result<usize, Refusal>
        ensures { said_turn result ≡ first_turn self.entry.bytes.now (4 * self.entry.word) }
    {
        let rest = &self.bytes[4 * self.word..];
        utils::check_version(rest[0])?;
        let words = octets::joined(rest[2], rest[3]) + 1;
        let next = self.word + words;
        utils::check_present(self.bytes, 4 * next)?;
        if rest[0] / 32 % 2 == 0 {
            return Ok(next);
        }
        if 4 * next < self.bytes.len() {
            return Err(Refusal::InvalidPadding);
        }
        let packet = OwnBytes {
            bytes: &rest[..4 * words],
        };
        if packet.padding_fits() {
            Ok(next)
        } else {
            Err(Refusal::InvalidPadding)
        }
    }

    // Whether the packet is a usual one: of version 2, without padding, of 1,024 bytes at most, and whole.
    #[tactic(auto, unfolding(crate::specs::Inner::is_usual))]
    fn is_usual(self) -> bool
        ensures { result ≡ is_usual self.entry.bytes.now self.entry.word }
    {
        let at = 4 * self.word;
        self.bytes[at] / 32 == 4
            && self.bytes[at + 2] == 0
            && usize::from(self.bytes[at + 3]) < self.bytes.len() / 4 - self.word
    }

    // The low byte of a usual packet's length says where it ends, and the next turn waits for that byte alone.
    #[tactic(auto, unfolding(crate::specs::Inner::is_usual, crate::specs::Pass::first_turn))]
    fn next(self) -> Result<usize, Refusal>
        ensures { said_turn result ≡ first_turn self.entry.bytes.now (4 * self.entry.word) }
    {
        if self.is_usual() {
            return Ok(self.word + 1 + usize::from(self.bytes[4 * self.word + 3]));
        }
        self.tested()
    }
}

// `Compound::parse`: the first pass over all packets. Each turn asks for a word alone, which is one test; what is left behind the
// words is tested once, at the end.
#[tactic(auto, using(crate::proofs::Laws::passing))]
pub fn parse(bytes: &[u8]) -> Result<(), Refusal>
    ensures { said result ≡ first_pass bytes.now }
{
    utils::check_present(bytes, 4)?;
    let end = bytes.len();
    let mut word = 0;
    while word < end / 4 {
        word = Turn { bytes, word }.next()?;
    }
    if 4 * word < end {
        return Err(Refusal::Truncated {
            expected: 4 * word + 4,
            actual: end,
        });
    }
    Ok(())
}

// Whether a record, whoever made it, is of these bytes. Readers ask this behind `check_packet`, before they trust body and padding.
#[tactic(auto, unfolding(crate::specs::Record::check_record))]
pub fn check_record(packet: &[u8], p: Packet) -> Result<(), Refusal>
    ensures { said result ≡ check_record packet.now p }
{
    let sum = 4usize.saturating_add(p.body).saturating_add(p.padding);
    if p.length != packet.len() || sum != p.length {
        return Err(Refusal::InvalidPadding);
    }
    Ok(())
}

// The record of bytes that are one packet, for readers of bytes that skipped the walk: here a padding count need be no multiple of
// four, and a count of 0 is `check_packet`'s to refuse.
#[tactic(auto, using(utils::proofs::Laws::right_length), unfolding(crate::specs::Record::own_record))]
pub fn record_of(packet: &[u8]) -> Result<Packet, Refusal>
    ensures { said result ≡ own_record packet.now }
{
    utils::check_length(packet)?;
    let p = OwnBytes { bytes: packet }.record(0);
    check_record(packet, p)?;
    Ok(p)
}

// What the walk finds at any offset. Expected lengths count from the start of the bytes, so all of them go with the offset.
#[tactic(auto, using(crate::proofs::Record::front), unfolding(crate::specs::Walk::walk_step))]
fn found_at(bytes: &[u8], at: usize) -> Result<Option<Packet>, Refusal>
    ensures { said result ≡ met_of (walk_step bytes.now at) }
{
    if bytes.len() <= at {
        return Ok(None);
    }
    utils::check_present(bytes, at + 4)?;
    let next = at + 4 + 4 * octets::joined(bytes[at + 2], bytes[at + 3]);
    utils::check_present(bytes, next)?;
    utils::check_version(bytes[at])?;
    let packet = OwnBytes {
        bytes: &bytes[at..next],
    };
    if packet.misfits() {
        return Err(Refusal::InvalidPadding);
    }
    Ok(Some(packet.record(at)))
}

// The step of the walk, from any offset. It goes on behind the packet that it finds; where it finds none, at the end of the bytes.
#[tactic(auto, unfolding(crate::specs::Walk::walk_step))]
pub fn walk_step(bytes: &[u8], at: usize) -> Walked
    ensures { said_walked result ≡ walk_step bytes.now at }
{
    let found = found_at(bytes, at);
    let next = match found {
        Ok(Some(p)) => at + p.length,
        _ => bytes.len(),
    };
    Walked { found, next }
}

// The packet that the step hands back, as a part of the lent bytes; empty where it hands back none.
#[tactic(auto, unfolding(crate::specs::Walk::walk_step, crate::specs::Walk::walk_part))]
pub fn walk_part(bytes: &[u8], at: usize) -> &[u8]
    ensures { HandsBack bytes.entry at result }
{
    let walked = walk_step(bytes, at);
    match walked.found {
        Ok(Some(_)) => &bytes[at..walked.next],
        _ => &bytes[..0],
    }
}

// Where the walk goes on after the step.
#[tactic(auto, unfolding(crate::specs::Walk::walk_next))]
pub fn walk_next(bytes: &[u8], at: usize) -> usize
    ensures { result ≡ walk_next bytes.now at }
{
    walk_step(bytes, at).next
}
