// Filling a lent list with a block's status words, by a quick loop for each kind of chunk. Each fill is lent the delta bytes from the next
// one on and the places of its words alone, writes a word to each, and answers how many of the bytes it ate.
ghost use Rattle.std.specs.Prelude.{◌≡◌, [], ◌∷◌, ◌*◌, ◌/◌, ◌^◌, ◌≤◌, ◌<◌, length, take, replicate};
ghost use Rattle.twcc.specs.Words.{bytes_of, word_of};
ghost use Rattle.twcc.specs.Chunks.{unpack, stands_for};
ghost use Rattle.twcc_read.specs.Filled.{OneOrTwo, Filled, AllFillable, AllFilled};

use twcc::{NOT_RECEIVED, ONES_END, RESERVED, RUN_WEIGHT, RUNS_END, TRUNCATED};
use twcc_cursors::{Chunks, Deltas};

// The word of a symbol, with the next two bytes at hand.
#[tactic(auto, using(crate::proofs::Symbols::words))]
fn word(symbol: usize, high: u8, low: u8) -> i32
    ensures { result ≡ word_of symbol (high ∷ low ∷ []) }
{
    match symbol {
        0 => NOT_RECEIVED,
        1 => i32::from(high),
        2 => twcc_cursors::large(high, low),
        _ => RESERVED,
    }
}

// The delta bytes of a symbol.
#[tactic(auto, using(crate::proofs::Symbols::words))]
fn eaten(symbol: usize) -> usize
    ensures { (result ≡ bytes_of symbol) × (result ≤ symbol) × (result ≤ 2) }
{
    if 2 < symbol { 0 } else { symbol }
}

// Deltas of one symbol, small or large ones, whose bytes are there. The symbol is a const parameter with a fact on it: a trait over two marker
// types would say the same in five items.
fn fill_deltas<const SYMBOL: usize>(bytes: &[u8], list: &mut [i32])
    requires a_delta { OneOrTwo SYMBOL }
    requires there { SYMBOL * length list.old ≤ length bytes.now }
    ensures { Filled bytes.now (replicate (length list.old) SYMBOL) (SYMBOL * length list.old) list.new }
{
    for j in 0..list.len() {
        let at = SYMBOL * j;
        list[j] = word(SYMBOL, bytes[at], bytes[at + SYMBOL - 1]);
    }
}

// Eight of them by way of a local array: the compiler then makes and stores them all at once. With `copy_from_slice` for the last loop a
// thousand large deltas take 2,798 instructions, with the loop 1,545.
fn fill_eight<const SYMBOL: usize>(bytes: &[u8], list: &mut [i32])
    requires a_delta { OneOrTwo SYMBOL }
    requires there { SYMBOL * 8 ≤ length bytes.now }
    requires eight { length list.old ≡ 8 }
    ensures { Filled bytes.now (replicate 8 SYMBOL) (SYMBOL * 8) list.new }
{
    let mut words = [0i32; 8];
    fill_deltas::<SYMBOL>(bytes, &mut words);
    for j in 0..8 {
        list[j] = words[j];
    }
}

// All of them, eight at a time.
fn fill_eights<const SYMBOL: usize>(bytes: &[u8], list: &mut [i32])
    requires a_delta { OneOrTwo SYMBOL }
    requires there { SYMBOL * length list.old ≤ length bytes.now }
    ensures { Filled bytes.now (replicate (length list.old) SYMBOL) (SYMBOL * length list.old) list.new }
{
    let eights = list.len() / 8;
    for k in 0..eights {
        fill_eight::<SYMBOL>(&bytes[SYMBOL * (8 * k)..], &mut list[8 * k..8 * k + 8]);
    }
    fill_deltas::<SYMBOL>(&bytes[SYMBOL * (8 * eights)..], &mut list[8 * eights..]);
}

// A run of such deltas: those whose bytes are there, then truncated ones, which eat what is left.
fn fill_run_of<const SYMBOL: usize>(bytes: &[u8], list: &mut [i32]) -> usize
    requires { OneOrTwo SYMBOL }
    ensures { Filled bytes.now (replicate (length list.old) SYMBOL) result list.new }
{
    let there = bytes.len() / SYMBOL;
    if list.len() <= there {
        fill_eights::<SYMBOL>(bytes, list);
        return SYMBOL * list.len();
    }
    let (whole, cut) = list.split_at_mut(there);
    fill_eights::<SYMBOL>(bytes, whole);
    cut.fill(TRUNCATED);
    bytes.len()
}

// A run of any symbol.
fn fill_run(bytes: &[u8], symbol: usize, list: &mut [i32]) -> usize
    ensures { Filled bytes.now (replicate (length list.old) symbol) result list.new }
{
    match symbol {
        0 => {
            list.fill(NOT_RECEIVED);
            0
        }
        1 => fill_run_of::<1>(bytes, list),
        2 => fill_run_of::<2>(bytes, list),
        _ => {
            list.fill(RESERVED);
            0
        }
    }
}

// A vector of symbols of BITS bits each, where fourteen bytes are there: no test within.
fn fill_vector<const BITS: usize>(bytes: &[u8], chunk: usize, list: &mut [i32]) -> usize
    requires bits { OneOrTwo BITS }
    requires there { 14 ≤ length bytes.now }
    requires whole { length list.old ≡ 14 / BITS }
    ensures { Filled bytes.now (unpack (2 ^ BITS) (14 / BITS) chunk) result list.new }
{
    let mut p = 0;
    for j in 0..14 / BITS {
        let symbol = (chunk >> (14 - BITS * (j + 1))) % (1 << BITS);
        list[j] = word(symbol, bytes[p], bytes[p + BITS - 1]);
        p += eaten(symbol);
    }
    p
}

// The words of a chunk's first symbols, one by one.
fn fill_each(bytes: &[u8], chunk: usize, list: &mut [i32]) -> usize
    requires { length list.old ≤ length (stands_for chunk) }
    ensures { Filled bytes.now (take (length list.old) (stands_for chunk)) result list.new }
{
    let mut deltas = Deltas { at: 0 };
    for j in 0..list.len() {
        let delta = deltas.next(bytes, twcc::symbol_at(chunk, j));
        list[j] = delta.word;
        deltas = delta.next;
    }
    deltas.at
}

// The same, as quickly as the kind of chunk allows.
#[tactic(auto, using(crate::proofs::Chunks::firsts))]
fn fill_chunk(bytes: &[u8], chunk: usize, list: &mut [i32]) -> usize
    requires { length list.old ≤ length (stands_for chunk) }
    ensures { Filled bytes.now (take (length list.old) (stands_for chunk)) result list.new }
{
    if chunk < RUNS_END {
        return fill_run(bytes, chunk / RUN_WEIGHT, list);
    }
    if bytes.len() < 14 || list.len() < twcc::size(chunk) {
        return fill_each(bytes, chunk, list);
    }
    if chunk < ONES_END {
        return fill_vector::<1>(bytes, chunk, list);
    }
    fill_vector::<2>(bytes, chunk, list)
}

// The words of all chunks, where the deltas start at a place.
pub(crate) fn fill_all(block: &[u8], statuses: usize, start: usize, list: &mut [i32])
    requires { AllFillable block.now statuses start list.old }
    ensures { AllFilled block.now statuses start list.old list.new }
{
    let mut c = Chunks {
        at: 8,
        left: statuses,
    };
    let mut d = start;
    let mut k = 0;
    while let Some(got) = c.next(block) {
        d += fill_chunk(&block[d..], got.chunk, &mut list[k..k + got.count]);
        k += got.count;
        c = got.next;
    }
}
