// The calls of the C interface, as include/bogslipper.h declares them and `exports_c` exports them: the proved functions under
// plain names, each answer a struct of numbers. A call promises what the function behind it promises.
#![tactic(auto)]

ghost use Rattle.std.specs.Prelude.{◌≡◌, ◌≤◌, map, pos};
ghost use Rattle.octets.specs.Signed.{bits64};
ghost use Rattle.refusal.specs.Number.{no};
ghost use Rattle.refusal.specs.Said.{said};
ghost use Rattle.utils.specs.Header.{version_of, padding_bit_of, count_of, type_of, length_of};
ghost use Rattle.utils.specs.Check.{field, padding_byte, check_packet};
ghost use Rattle.unknown.specs.Parse.{unknown};
ghost use Rattle.compound.specs.Pass.{first_pass};
ghost use Rattle.compound.specs.Walk.{walk_step};
ghost use Rattle.arrival.specs.Cursor.{begun, next_arrival};
ghost use Rattle.exports.specs.Says.{says, Answers, nothing, number, padding, walk, block, placed_of, tick_of, started, cursor, entry};
ghost use Rattle.exports.specs.Wrote.{WroteUnknown, AddedNack, ReadNack, WroteNack, ReadTwcc, given, WroteTwcc};

use arrival::{Arrival, Arrivals, Entry};
use kinds::{RefTime, Seq, Tick};
use refusal::{Refusal, Told};

// Number 0 and the answer's values, or a refusal's number and its values; the rest 0.
#[repr(C)]
#[derive(Clone, Copy)]
pub struct Said {
    pub number: u64,
    pub values: [u64; 8],
}

// An answer of a few values.
fn given<const N: usize>(values: [u64; N]) -> Said
    requires { N ≤ 8 }
    ensures { result ≡ says 0 (map pos values.entry) }
{
    let mut all = [0; 8];
    all[..N].copy_from_slice(&values);
    Said {
        number: 0,
        values: all,
    }
}

fn refused(r: Refusal) -> Said
    ensures { Answers (no r) result }
{
    let told = Told::from(r);
    let said = given([told.first, told.second]);
    let values = said.values;
    Said {
        number: told.number,
        values,
    }
}

#[tactic(auto, unfolding(crate::specs::Says::said_of, crate::specs::Says::nothing))]
fn said_checked(answer: Result<(), Refusal>) -> Said
    ensures { Answers (nothing (said answer)) result }
{
    match answer {
        Ok(()) => given([]),
        Err(r) => refused(r),
    }
}

#[tactic(auto, unfolding(crate::specs::Says::said_of, crate::specs::Says::number))]
fn said_number(answer: Result<usize, Refusal>) -> Said
    ensures { Answers (number (said answer)) result }
{
    match answer {
        Ok(n) => given([n as u64]),
        Err(r) => refused(r),
    }
}

pub fn bog_version(packet: &[u8]) -> Said
    ensures { Answers (number (field packet.now (version_of packet.now))) result }
{
    said_number(utils::parse_version(packet))
}

pub fn bog_padding_bit(packet: &[u8]) -> Said
    ensures { Answers (number (field packet.now (padding_bit_of packet.now))) result }
{
    said_number(utils::parse_padding_bit(packet))
}

pub fn bog_count(packet: &[u8]) -> Said
    ensures { Answers (number (field packet.now (count_of packet.now))) result }
{
    said_number(utils::parse_count(packet))
}

pub fn bog_packet_type(packet: &[u8]) -> Said
    ensures { Answers (number (field packet.now (type_of packet.now))) result }
{
    said_number(utils::parse_packet_type(packet))
}

pub fn bog_length(packet: &[u8]) -> Said
    ensures { Answers (number (field packet.now (length_of packet.now))) result }
{
    said_number(utils::parse_length(packet))
}

#[tactic(auto, unfolding(crate::specs::Says::said_of, crate::specs::Says::padding))]
pub fn bog_padding(packet: &[u8]) -> Said
    ensures { Answers (padding (padding_byte packet.now)) result }
{
    match utils::parse_padding(packet) {
        Ok(None) => given([0]),
        Ok(Some(byte)) => given([1, u64::from(byte)]),
        Err(r) => refused(r),
    }
}

pub fn bog_check_packet(packet: &[u8], least: u64, packet_type: u8) -> Said
    ensures { Answers (nothing (check_packet packet.now least packet_type)) result }
{
    said_checked(utils::check_packet(packet, least as usize, packet_type))
}

pub fn bog_compound_parse(bytes: &[u8]) -> Said
    ensures { Answers (nothing (first_pass bytes.now)) result }
{
    said_checked(compound::parse(bytes))
}

pub fn bog_unknown_parse(packet: &[u8]) -> Said
    ensures { Answers (nothing (unknown packet.now)) result }
{
    said_checked(unknown::parse(packet))
}

#[tactic(auto, unfolding(crate::specs::Says::said_of, crate::specs::Says::walk))]
pub fn bog_walk_step(bytes: &[u8], offset: u64) -> Said
    ensures { Answers (walk (walk_step bytes.now offset)) result }
{
    let walked = compound::walk_step(bytes, offset as usize);
    let next = walked.next as u64;
    match walked.found {
        Ok(Some(p)) => given([
            0,
            next,
            p.start as u64,
            p.length as u64,
            p.body as u64,
            p.padding as u64,
        ]),
        Ok(None) => given([1, next]),
        Err(r) => refused(r),
    }
}

pub fn bog_unknown_write(
    count: u8,
    packet_type: u8,
    body: &[u8],
    padding: u8,
    out: &mut [u8],
) -> Said
    ensures { WroteUnknown count packet_type body.now padding out.old result out.new }
{
    said_number(unknown::write(count, packet_type, body, padding, out))
}

pub fn bog_nack_add(store: &mut [u8], number: u16) -> Said
    ensures { AddedNack store.old number result store.new }
{
    said_checked(nack_store::add(store, Seq(number)))
}

pub fn bog_nack_read(bytes: &[u8], list: &mut [u16]) -> Said
    ensures { ReadNack bytes.now list.old result list.new }
{
    said_number(nack_read::read(bytes, list))
}

pub fn bog_nack_write(store: &[u8], out: &mut [u8]) -> Said
    ensures { WroteNack store.now out.old result out.new }
{
    said_number(nack_write::write(store, out))
}

#[tactic(auto, unfolding(crate::specs::Says::said_of, crate::specs::Says::listed_block))]
pub fn bog_twcc_read(block: &[u8], list: &mut [i32]) -> Said
    ensures { ReadTwcc block.now list.old result list.new }
{
    match twcc_read::read(block, list) {
        Ok(listed) => {
            let header = listed.header;
            given([
                u64::from(header.base.0),
                u64::from(header.statuses),
                u64::from(header.time.0),
                u64::from(header.feedback),
                listed.count as u64,
            ])
        }
        Err(r) => refused(r),
    }
}

// A cursor as the plain numbers that C passes: whether it is placed, and its ticks.
#[derive(Clone, Copy)]
struct State {
    placed: u64,
    ticks: u64,
}

fn plain(arrivals: Arrivals) -> State
    ensures { (result.placed ≡ placed_of arrivals) × (result.ticks ≡ bits64 (tick_of arrivals)) }
{
    match arrivals.from {
        Some(tick) => State {
            placed: 1,
            ticks: arrival::bits(tick),
        },
        None => State {
            placed: 0,
            ticks: 0,
        },
    }
}

#[tactic(auto, unfolding(crate::specs::Says::said_of, crate::specs::Says::started))]
pub fn bog_arrivals(time: u32) -> Said
    ensures { Answers (started (begun time)) result }
{
    match Arrivals::of(RefTime(time)) {
        Ok(arrivals) => {
            let now = plain(arrivals);
            given([now.placed, now.ticks])
        }
        Err(r) => refused(r),
    }
}

#[tactic(auto, unfolding(crate::specs::Says::said_of, crate::specs::Says::entry))]
fn said_entry(met: Entry) -> Said
    ensures { Answers (entry met) result }
{
    let next = plain(met.next);
    match met.arrival.shown() {
        Arrival::Missing => given([0, 0, next.placed, next.ticks]),
        Arrival::Unreadable => given([1, 0, next.placed, next.ticks]),
        Arrival::Unplaced => given([2, 0, next.placed, next.ticks]),
        Arrival::At(milliseconds) => given([3, milliseconds.to_bits(), next.placed, next.ticks]),
    }
}

// C has no `Option`: a flag says whether there is a tick.
pub fn bog_arrivals_next(placed: bool, ticks: i64, word: i32) -> Said
    ensures { Answers (entry (next_arrival (cursor placed ticks) word)) result }
{
    let from = if placed { Some(Tick(ticks)) } else { None };
    said_entry(Arrivals { from }.next(word))
}

// Nor has it one of a limit.
#[tactic(auto, unfolding(crate::specs::Says::said_of, crate::specs::Says::block))]
pub fn bog_twcc_write(
    base: u16,
    time: u32,
    feedback: u8,
    list: &[i32],
    limited: bool,
    limit: u64,
    out: &mut [u8],
) -> Said
    ensures { WroteTwcc base time feedback list.now (given limited limit) out.old result out.new }
{
    let limit = if limited { Some(limit as usize) } else { None };
    match twcc_write::write(Seq(base), RefTime(time), feedback, list, limit, out) {
        Ok(used) => given([used.bytes as u64, used.taken as u64]),
        Err(r) => refused(r),
    }
}
