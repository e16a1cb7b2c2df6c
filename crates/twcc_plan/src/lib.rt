// What a TWCC block writer asks of its list: the first word that can't be written, and the chunks of a block within a limit.
#![tactic(auto)]

mod count;
mod pick;

ghost use Rattle.std.specs.Prelude.{◌≡◌, map, ◌≤◌};
ghost use Rattle.twcc.specs.Words.{symbol_of};
ghost use Rattle.twcc_plan.specs.Block.{in_range, first_bad};
ghost use Rattle.twcc_plan.specs.Steps.{Slim, short_step, fit_step, step_in};
ghost use Rattle.twcc_plan.specs.Promise.{Plans};

use pick::Picked;
use twcc::{LOWEST_DELTA, NOT_RECEIVED, RUN_WEIGHT, RUNS_END};

// Whether a word can be written.
#[tactic(auto, unfolding(crate::specs::Block::in_range))]
fn in_range(word: i32) -> bool
    ensures { result ≡ in_range word }
{
    (LOWEST_DELTA..=NOT_RECEIVED).contains(&word)
}

// The first place of a word out of range, or the list's length: a number, as `first_bad_unique` is stated.
pub fn first_bad(list: &[i32]) -> usize
    ensures { result ≡ first_bad list.now }
{
    count::by_blocks::<128, _>(list, &in_range)
}

// A plan's chunks, its bytes without and with padding, and the entries that it takes.
#[derive(Clone, Copy, Debug, PartialEq, Eq)]
pub struct Plan {
    pub chunks: usize,
    pub used: usize,
    pub bytes: usize,
    pub taken: usize,
}

// What is left of a chunk that is so many bytes too long: of a run of received entries the first of them, of any other nothing.
#[tactic(auto, unfolding(crate::specs::Steps::short_step))]
fn shortened(over: usize, c: Picked) -> Option<Picked>
    requires { (over ≤ 10000000000000000000) × Slim c }
    ensures { result ≡ short_step over c }
{
    if !(RUN_WEIGHT..RUNS_END).contains(&c.chunk) {
        return None;
    }
    let symbol = c.chunk / RUN_WEIGHT;
    let cut = over.next_multiple_of(4) / symbol;
    if c.count <= cut {
        return None;
    }
    Some(pick::run_picked(symbol, c.count - cut))
}

// What a limit leaves of a chunk where so many bytes are used.
#[tactic(auto, unfolding(crate::specs::Steps::fit_step))]
fn fitted(c: Picked, used: usize, limit: Option<usize>) -> Option<Picked>
    requires { (used ≤ 9500000000000000000) × Slim c }
    ensures { result ≡ fit_step limit used c }
{
    let Some(bytes) = limit else {
        return Some(c);
    };
    let size = (used + 2 + c.width).next_multiple_of(4);
    if size <= bytes {
        return Some(c);
    }
    shortened(size - bytes, c)
}

// The next chunk of a block with so many bytes, before what remains of the list.
fn next_chunk(rest: &[i32], used: usize, limit: Option<usize>) -> Option<Picked>
    requires { used ≤ 9500000000000000000 }
    ensures { result ≡ step_in limit used (map symbol_of rest.now) }
{
    if rest.is_empty() {
        return None;
    }
    fitted(pick::pick(rest), used, limit)
}

// Plans a block and stores its chunks behind the header's place; bytes that would lie past the buffer's end fall away.
pub fn plan_chunks(list: &[i32], limit: Option<usize>, out: &mut [u8]) -> Plan
    ensures { Plans list.now limit out.old result out.new }
{
    let mut chunks = 0;
    let mut used = 8;
    let mut taken = 0;
    while let Some(c) = next_chunk(&list[taken..], used, limit) {
        lent::put16(out, 8 + 2 * chunks, c.chunk as u16);
        chunks += 1;
        used += 2 + c.width;
        taken += c.count;
    }
    Plan {
        chunks,
        used,
        bytes: used.next_multiple_of(4),
        taken,
    }
}
