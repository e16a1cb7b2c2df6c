// The exported calls of include/bogslipper.h: each hands on to the function of that name in `exports`, and promises the same. Two crates,
// since the replay calls the functions from a library and C from an archive, which no crate can use.
#![tactic(auto)]

ghost use Rattle.utils.specs.Header.{version_of, padding_bit_of, count_of, type_of, length_of};
ghost use Rattle.utils.specs.Check.{field, padding_byte, check_packet};
ghost use Rattle.unknown.specs.Parse.{unknown};
ghost use Rattle.compound.specs.Pass.{first_pass};
ghost use Rattle.compound.specs.Walk.{walk_step};
ghost use Rattle.arrival.specs.Cursor.{begun, next_arrival};
ghost use Rattle.exports.specs.Says.{Answers, nothing, number, padding, walk, started, cursor, entry};
ghost use Rattle.exports.specs.Wrote.{WroteUnknown, AddedNack, ReadNack, WroteNack, ReadTwcc, given, WroteTwcc};

use exports::Said;

#[unsafe(no_mangle)]
pub extern "C" fn bog_version(packet: &[u8]) -> Said
    ensures { Answers (number (field packet.now (version_of packet.now))) result }
{
    exports::bog_version(packet)
}

#[unsafe(no_mangle)]
pub extern "C" fn bog_padding_bit(packet: &[u8]) -> Said
    ensures { Answers (number (field packet.now (padding_bit_of packet.now))) result }
{
    exports::bog_padding_bit(packet)
}

#[unsafe(no_mangle)]
pub extern "C" fn bog_count(packet: &[u8]) -> Said
    ensures { Answers (number (field packet.now (count_of packet.now))) result }
{
    exports::bog_count(packet)
}

#[unsafe(no_mangle)]
pub extern "C" fn bog_packet_type(packet: &[u8]) -> Said
    ensures { Answers (number (field packet.now (type_of packet.now))) result }
{
    exports::bog_packet_type(packet)
}

#[unsafe(no_mangle)]
pub extern "C" fn bog_length(packet: &[u8]) -> Said
    ensures { Answers (number (field packet.now (length_of packet.now))) result }
{
    exports::bog_length(packet)
}

#[unsafe(no_mangle)]
pub extern "C" fn bog_padding(packet: &[u8]) -> Said
    ensures { Answers (padding (padding_byte packet.now)) result }
{
    exports::bog_padding(packet)
}

#[unsafe(no_mangle)]
pub extern "C" fn bog_check_packet(packet: &[u8], least: u64, packet_type: u8) -> Said
    ensures { Answers (nothing (check_packet packet.now least packet_type)) result }
{
    exports::bog_check_packet(packet, least, packet_type)
}

#[unsafe(no_mangle)]
pub extern "C" fn bog_compound_parse(bytes: &[u8]) -> Said
    ensures { Answers (nothing (first_pass bytes.now)) result }
{
    exports::bog_compound_parse(bytes)
}

#[unsafe(no_mangle)]
pub extern "C" fn bog_unknown_parse(packet: &[u8]) -> Said
    ensures { Answers (nothing (unknown packet.now)) result }
{
    exports::bog_unknown_parse(packet)
}

#[unsafe(no_mangle)]
pub extern "C" fn bog_walk_step(bytes: &[u8], offset: u64) -> Said
    ensures { Answers (walk (walk_step bytes.now offset)) result }
{
    exports::bog_walk_step(bytes, offset)
}

#[unsafe(no_mangle)]
pub extern "C" fn bog_unknown_write(
    count: u8,
    packet_type: u8,
    body: &[u8],
    padding: u8,
    out: &mut [u8],
) -> Said
    ensures { WroteUnknown count packet_type body.now padding out.old result out.new }
{
    exports::bog_unknown_write(count, packet_type, body, padding, out)
}

#[unsafe(no_mangle)]
pub extern "C" fn bog_nack_add(store: &mut [u8], number: u16) -> Said
    ensures { AddedNack store.old number result store.new }
{
    exports::bog_nack_add(store, number)
}

#[unsafe(no_mangle)]
pub extern "C" fn bog_nack_read(bytes: &[u8], list: &mut [u16]) -> Said
    ensures { ReadNack bytes.now list.old result list.new }
{
    exports::bog_nack_read(bytes, list)
}

#[unsafe(no_mangle)]
pub extern "C" fn bog_nack_write(store: &[u8], out: &mut [u8]) -> Said
    ensures { WroteNack store.now out.old result out.new }
{
    exports::bog_nack_write(store, out)
}

#[unsafe(no_mangle)]
pub extern "C" fn bog_twcc_read(block: &[u8], list: &mut [i32]) -> Said
    ensures { ReadTwcc block.now list.old result list.new }
{
    exports::bog_twcc_read(block, list)
}

#[unsafe(no_mangle)]
pub extern "C" fn bog_arrivals(time: u32) -> Said
    ensures { Answers (started (begun time)) result }
{
    exports::bog_arrivals(time)
}

// C has no `Option`: here and below a flag stands before a value, as in `exports`.
#[unsafe(no_mangle)]
pub extern "C" fn bog_arrivals_next(placed: bool, ticks: i64, word: i32) -> Said
    ensures { Answers (entry (next_arrival (cursor placed ticks) word)) result }
{
    exports::bog_arrivals_next(placed, ticks, word)
}

#[unsafe(no_mangle)]
pub extern "C" fn bog_twcc_write(
    base: u16,
    time: u32,
    feedback: u8,
    list: &[i32],
    limited: bool,
    limit: u64,
    out: &mut [u8],
) -> Said
    ensures { WroteTwcc base time feedback list.now (given limited limit) out.old result out.new }
{
    exports::bog_twcc_write(base, time, feedback, list, limited, limit, out)
}
