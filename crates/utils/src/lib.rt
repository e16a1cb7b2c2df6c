// The four-byte header that every RTCP packet opens with (utils.rs): its fields, each read alone, the padding byte, and the
// checks that a packet of a known type has to pass.
#![tactic(auto)]

ghost use Rattle.std.specs.Prelude.{◌≡◌, ◌≤◌};
ghost use Rattle.refusal.specs.Said.{said};
ghost use Rattle.utils.specs.Header.{shortest, longest, version_of, padding_bit_of, count_of, type_of, length_of};
ghost use Rattle.utils.specs.Check.{check_present, check_version, field, padding_byte, own_length, check_length, own_padding, check_packet};

use refusal::Refusal;

// A packet is at least its header, and at most what its length field can say.
pub const SHORTEST: usize = 4;

pub const LONGEST: usize = 262144;

// The fields without a test: bytes that are missing count as 0.
fn version_of(packet: &[u8]) -> usize
    ensures { result ≡ version_of packet.now }
{
    octets::byte_at(packet, 0) / 64
}

fn padding_bit_of(packet: &[u8]) -> usize
    ensures { result ≡ padding_bit_of packet.now }
{
    octets::byte_at(packet, 0) / 32 % 2
}

fn count_of(packet: &[u8]) -> usize
    ensures { result ≡ count_of packet.now }
{
    octets::byte_at(packet, 0) % 32
}

fn type_of(packet: &[u8]) -> usize
    ensures { result ≡ type_of packet.now }
{
    octets::byte_at(packet, 1)
}

fn length_of(packet: &[u8]) -> usize
    ensures { (result ≡ length_of packet.now) × (shortest ≤ result) × (result ≤ longest) }
{
    4 * (octets::be16_at(packet, 2) + 1)
}

// Whether so many bytes are there.
pub fn check_present(bytes: &[u8], expected: usize) -> Result<(), Refusal>
    ensures { said result ≡ check_present bytes.now expected }
{
    let actual = bytes.len();
    if actual < expected {
        return Err(Refusal::Truncated { expected, actual });
    }
    Ok(())
}

// Whether the version is 2, by a packet's first byte.
pub fn check_version(first: u8) -> Result<(), Refusal>
    ensures { said result ≡ check_version first }
{
    let version = first / 64;
    if version != 2 {
        return Err(Refusal::UnsupportedVersion(version));
    }
    Ok(())
}

// A field's value, where the packet has its header.
fn field_of(packet: &[u8], value: usize) -> Result<usize, Refusal>
    ensures { said result ≡ field packet.now value }
{
    check_present(packet, SHORTEST)?;
    Ok(value)
}

pub fn parse_version(packet: &[u8]) -> Result<usize, Refusal>
    ensures { said result ≡ field packet.now (version_of packet.now) }
{
    field_of(packet, version_of(packet))
}

pub fn parse_padding_bit(packet: &[u8]) -> Result<usize, Refusal>
    ensures { said result ≡ field packet.now (padding_bit_of packet.now) }
{
    field_of(packet, padding_bit_of(packet))
}

pub fn parse_count(packet: &[u8]) -> Result<usize, Refusal>
    ensures { said result ≡ field packet.now (count_of packet.now) }
{
    field_of(packet, count_of(packet))
}

pub fn parse_packet_type(packet: &[u8]) -> Result<usize, Refusal>
    ensures { said result ≡ field packet.now (type_of packet.now) }
{
    field_of(packet, type_of(packet))
}

pub fn parse_length(packet: &[u8]) -> Result<usize, Refusal>
    ensures { said result ≡ field packet.now (length_of packet.now) }
{
    field_of(packet, length_of(packet))
}

// The last byte of the packet that stands at the front, where its padding bit is set.
#[tactic(auto, unfolding(crate::specs::Check::padding_byte))]
pub fn parse_padding(packet: &[u8]) -> Result<Option<u8>, Refusal>
    ensures { said result ≡ padding_byte packet.now }
{
    check_present(packet, SHORTEST)?;
    if padding_bit_of(packet) == 0 {
        return Ok(None);
    }
    let length = length_of(packet);
    check_present(packet, length)?;
    Ok(Some(packet[length - 1]))
}

// Whether a packet that has its header is as long as it says.
#[tactic(auto, unfolding(crate::specs::Check::own_length))]
fn own_length(packet: &[u8]) -> Result<(), Refusal>
    ensures { said result ≡ own_length packet.now }
{
    let expected = length_of(packet);
    check_present(packet, expected)?;
    let actual = packet.len();
    if expected < actual {
        return Err(Refusal::TooLarge { expected, actual });
    }
    Ok(())
}

// Whether the bytes are one packet, as long as it says.
#[tactic(auto, unfolding(crate::specs::Check::check_length))]
pub fn check_length(packet: &[u8]) -> Result<(), Refusal>
    ensures { said result ≡ check_length packet.now }
{
    check_present(packet, SHORTEST)?;
    own_length(packet)
}

// Whether a whole packet's padding byte can be right.
#[tactic(auto, unfolding(crate::specs::Check::own_padding))]
fn own_padding(packet: &[u8]) -> Result<(), Refusal>
    ensures { said result ≡ own_padding packet.now }
{
    if padding_bit_of(packet) != 0 && octets::byte_at(packet, length_of(packet) - 1) == 0 {
        return Err(Refusal::InvalidPadding);
    }
    Ok(())
}

// The checks common to all packets of a known type and least length.
#[tactic(auto, unfolding(crate::specs::Check::check_packet))]
pub fn check_packet(packet: &[u8], least: usize, packet_type: u8) -> Result<(), Refusal>
    ensures { said result ≡ check_packet packet.now least packet_type }
{
    if !(SHORTEST..=LONGEST).contains(&least) {
        return Err(Refusal::LeastLength(least));
    }
    check_present(packet, least)?;
    check_version(packet[0])?;
    let actual = packet[1];
    if actual != packet_type {
        return Err(Refusal::PacketTypeMismatch {
            actual,
            requested: packet_type,
        });
    }
    own_length(packet)?;
    own_padding(packet)
}
