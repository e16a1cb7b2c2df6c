// Packets of any type (`Unknown` and `UnknownBuilder` of compound.rs): the check that a packet has to pass, and the plain
// writer of any count, type, body and padding.
#![tactic(auto)]

ghost use Rattle.std.specs.Prelude.{◌≡◌, ◌+◌, ◌≤◌, length};
ghost use Rattle.std.proofs.lemmas.List.Edits.{sets};
ghost use Rattle.refusal.specs.Said.{said};
ghost use Rattle.utils.specs.Header.{longest};
ghost use Rattle.unknown.specs.Parse.{unknown};
ghost use Rattle.unknown.specs.Packet.{size_of, first_byte, body_bytes, pad_bytes, packet_bytes};
ghost use Rattle.unknown.specs.Write.{Wrote};

use refusal::Refusal;

// `Unknown::parse`: one packet of any type, neither shorter nor longer than it says.
#[tactic(auto, unfolding(crate::specs::Parse::unknown, utils::specs::Check::check_length))]
pub fn parse(packet: &[u8]) -> Result<(), Refusal>
    ensures { said result ≡ unknown packet.now }
{
    utils::check_present(packet, utils::SHORTEST)?;
    utils::check_version(packet[0])?;
    utils::check_length(packet)
}

// A packet that its header can say: the count has five bits, and the length sixteen.
#[derive(Clone, Copy, Debug, PartialEq, Eq)]
struct Packet<'a> {
    count: u8,
    packet_type: u8,
    body: &'a [u8],
    padding: u8,
    ghost few: { count ≤ 31 },
    ghost short: { size_of (length body.now) padding ≤ longest },
}

impl<'a> Packet<'a> {
    // Version 2, the padding bit, and the count.
    #[tactic(auto, unfolding(crate::specs::Packet::first_byte))]
    fn first_byte(self) -> u8
        ensures { result ≡ first_byte self.entry.count self.entry.padding }
    {
        if self.padding == 0 {
            128 + self.count
        } else {
            160 + self.count
        }
    }

    // The header and the body.
    #[tactic(auto, unfolding(crate::specs::Packet::body_bytes))]
    fn put_body(self, out: &mut [u8])
        requires { 4 + length self.body.now ≤ length out.old }
        ensures { out.new ≡ sets out.old 0 (body_bytes self.entry.count self.entry.packet_type self.entry.body.now self.entry.padding) }
    {
        let behind = (self.body.len() + usize::from(self.padding)) / 4;
        out[0] = self.first_byte();
        out[1] = self.packet_type;
        lent::put16(out, 2, behind as u16);
        lent::copy(out, 4, self.body);
    }

    // Behind them zeros, and the count of the padding as its last byte.
    #[tactic(auto, using(crate::proofs::Laws::stores), unfolding(crate::specs::Packet::pad_bytes))]
    fn put_padding(self, out: &mut [u8])
        requires { size_of (length self.body.now) self.padding ≤ length out.old }
        ensures { out.new ≡ sets out.old (4 + length self.entry.body.now) (pad_bytes self.entry.padding) }
    {
        if self.padding == 0 {
            return;
        }
        let at = 4 + self.body.len();
        let zeros = usize::from(self.padding) - 1;
        lent::zeros(out, at, zeros);
        lent::put(out, at + zeros, self.padding);
    }

    #[tactic(auto, using(crate::proofs::Laws::stores))]
    fn put(self, out: &mut [u8])
        requires { size_of (length self.body.now) self.padding ≤ length out.old }
        ensures { out.new ≡ sets out.old 0 (packet_bytes self.entry.count self.entry.packet_type self.entry.body.now self.entry.padding) }
    {
        self.put_body(out);
        self.put_padding(out);
    }
}

// The bytes written, or why none were.
#[tactic(auto, unfolding(crate::specs::Write::written))]
pub fn write(
    count: u8,
    packet_type: u8,
    body: &[u8],
    padding: u8,
    out: &mut [u8],
) -> Result<usize, Refusal>
    ensures { Wrote count packet_type body.now padding out.old result out.new }
{
    if 31 < count {
        return Err(Refusal::CountOutOfRange(count));
    }
    if padding % 4 != 0 {
        return Err(Refusal::UnevenPadding(padding));
    }
    let size = body.len();
    let needed = 4 + size + usize::from(padding);
    if size % 4 != 0 || utils::LONGEST < needed {
        return Err(Refusal::BodyLength(size));
    }
    let present = out.len();
    if present < needed {
        return Err(Refusal::OutputTooSmall { needed, present });
    }
    let packet = Packet {
        count,
        packet_type,
        body,
        padding,
    };
    packet.put(out);
    Ok(needed)
}
