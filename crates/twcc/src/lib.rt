// The format of transport-wide congestion control (TWCC) feedback, for the reader and the writer: status words and their symbols,
// chunks and what they stand for. A status word is a `word`, a chunk's 16 bits are a `chunk`.
#![tactic(auto)]

ghost use Rattle.std.specs.Prelude.{◌≡◌, ◌%◌, ◌≤◌, length, get_or};
ghost use Rattle.twcc.specs.Words.{symbol_of};
ghost use Rattle.twcc.specs.Status.{status_of};
ghost use Rattle.twcc.specs.Chunks.{stands_for};

// The last reference time that 24 bits hold, in counts of 64 ms.
pub const LATEST_TIME: u32 = 16777215;

// Status words: a delta, from the lowest up to the first that is none, or one of three more.
pub const LOWEST_DELTA: i32 = -32768;

pub const NOT_RECEIVED: i32 = 32768;

pub const TRUNCATED: i32 = 32769;

pub const RESERVED: i32 = 32770;

// A chunk below RUNS_END is a run: its symbol times the weight, and its length. Runs of large deltas are those from LARGE_RUNS on. A
// chunk below ONES_END is fourteen one-bit symbols, any other seven two-bit symbols.
pub const RUN_WEIGHT: usize = 8192;

pub const LONGEST_RUN: usize = 8191;

pub const LARGE_RUNS: usize = 16384;

pub const RUNS_END: usize = 32768;

pub const ONES_END: usize = 49152;

// What a status word says of its packet.
#[derive(Clone, Copy, Debug, PartialEq, Eq)]
pub enum Status {
    Received(i16),
    NotReceived,
    Truncated,
    Reserved,
    NoStatus,
}

impl Status {
    // The status of any word. It is no `From`, since docs/PROOFS.md names it as `Status::of`.
    #[tactic(auto, using(crate::proofs::Tested::statuses))]
    pub fn of(word: i32) -> Status
        ensures { result ≡ status_of word }
    {
        if word < LOWEST_DELTA {
            return Status::NoStatus;
        }
        if word < NOT_RECEIVED {
            return Status::Received(word as i16);
        }
        if word == NOT_RECEIVED {
            return Status::NotReceived;
        }
        if word == TRUNCATED {
            return Status::Truncated;
        }
        if word == RESERVED {
            return Status::Reserved;
        }
        Status::NoStatus
    }
}

// A word's symbol, without a jump. Symbols are numbers and no enum: they are a chunk's digits, and are added and multiplied. They are
// counted in 32 bits, so that four go into a vector.
#[tactic(auto, using(crate::proofs::Tested::symbol_read))]
pub fn symbol(word: i32) -> u32
    ensures { (result ≡ symbol_of word) × (result ≤ 2) }
{
    let delta: u32 = if 255 < word { 2 } else { 1 };
    let received: u32 = if word < 0 { 2 } else { delta };
    if NOT_RECEIVED <= word { 0 } else { received }
}

// 1 for a small delta, else 0: a number, for sums without a jump.
#[tactic(auto, using(crate::proofs::Tested::small_read))]
pub fn small(word: i32) -> u32
    ensures { result ≡ symbol_of word % 2 }
{
    let few: u32 = if 255 < word { 0 } else { 1 };
    if word < 0 { 0 } else { few }
}

// How many symbols a chunk stands for.
#[tactic(auto, using(crate::proofs::Stands::by_kind))]
pub fn size(chunk: usize) -> usize
    ensures { result ≡ length (stands_for chunk) }
{
    if chunk < RUNS_END {
        return chunk % RUN_WEIGHT;
    }
    if chunk < ONES_END {
        return 14;
    }
    7
}

// The symbol at a place of a chunk, 0 past its last.
#[tactic(auto, using(crate::proofs::Stands::by_kind))]
pub fn symbol_at(chunk: usize, place: usize) -> usize
    ensures { result ≡ get_or (stands_for chunk) place 0 }
{
    if size(chunk) <= place {
        return 0;
    }
    if chunk < RUNS_END {
        return chunk / RUN_WEIGHT;
    }
    if chunk < ONES_END {
        return (chunk >> (13 - place)) % 2;
    }
    (chunk >> (12 - 2 * place)) % 4
}
