// The TWCC block writer (`TwccBuilder` of feedback/twcc.rs): it plans a block's chunks, then writes the block.
#![tactic(auto)]

mod deltas;

ghost use Rattle.std.specs.Prelude.{◌≡◌, ◌≤◌, ◌<◌, ltb, length, MatchResult};
ghost use Rattle.std.specs.Bool.{then_some};
ghost use Rattle.std.proofs.lemmas.List.Edits.{sets};
ghost use Rattle.refusal.specs.Number.{no};
ghost use Rattle.twcc.specs.Time.{latest};
ghost use Rattle.twcc_plan.specs.Block.{header, size_of};
ghost use Rattle.twcc_write.specs.Stores.{Plannable, BlockStorable, BlockStored};
ghost use Rattle.twcc_write.specs.Promise.{written, Wrote};

use kinds::{RefTime, Seq};
use refusal::Refusal;
use twcc::LATEST_TIME;
use twcc_plan::Plan;

// The most entries of a list.
const MOST_ENTRIES: usize = 16384;

// What a block used: its bytes, and the entries that it took.
#[derive(Clone, Copy, Debug, PartialEq, Eq)]
pub struct Used {
    pub bytes: usize,
    pub taken: usize,
}

// A block of a list's first entries, as many as the limit allows.
#[derive(Clone, Copy)]
struct Block<'a> {
    base: Seq,
    time: RefTime,
    feedback: u8,
    list: &'a [i32],
    limit: Option<usize>,
}

impl Block<'_> {
    // The bytes that it needs, where the room lacks. Where neither the limit nor the list's length settles it, a plan does, whose
    // chunks are not stored.
    fn lacking(&self, room: usize) -> Option<usize>
        requires { Plannable self.now.list.now self.now.limit }
        ensures { result ≡ then_some (ltb room (size_of self.now.limit self.now.list.now)) (size_of self.now.limit self.now.list.now) }
    {
        if self.limit.is_some_and(|bytes| bytes <= room) || 8 + 4 * self.list.len() <= room {
            return None;
        }
        let needed = twcc_plan::plan_chunks(self.list, self.limit, &mut []).bytes;
        (room < needed).then_some(needed)
    }

    // The tests in their order.
    fn check(&self, room: usize) -> Result<(), Refusal>
        ensures { MatchResult result (λ passed. BlockStorable self.now.time.0 self.now.list.now self.now.limit room)
            (λ r. written self.now.time.0 self.now.list.now self.now.limit room ≡ no r) }
    {
        let time = self.time.0;
        if LATEST_TIME < time {
            return Err(Refusal::ReferenceTimeTooLarge(time));
        }
        if MOST_ENTRIES < self.list.len() {
            return Err(Refusal::ListTooLong(self.list.len()));
        }
        let bad = twcc_plan::first_bad(self.list);
        if bad < self.list.len() {
            return Err(Refusal::StatusOutOfRange(bad));
        }
        let least = self.limit.unwrap_or(8);
        if least < 8 {
            return Err(Refusal::LimitTooSmall(least));
        }
        match self.lacking(room) {
            Some(needed) => Err(Refusal::OutputTooSmall {
                needed,
                present: room,
            }),
            None => Ok(()),
        }
    }

    // The eight bytes in front of the chunks.
    fn put_header(&self, count: usize, out: &mut [u8])
        requires { (8 ≤ length out.old) × (count < 65536) × (self.now.time.0 ≤ latest) }
        ensures { out.new ≡ sets out.old 0 (header self.now.base.0 count self.now.time.0 self.now.feedback) }
    {
        out[..2].copy_from_slice(&self.base.0.to_be_bytes());
        out[2..4].copy_from_slice(&(count as u16).to_be_bytes());
        out[4..7].copy_from_slice(&self.time.0.to_be_bytes()[1..]);
        out[7] = self.feedback;
    }

    // Where the tests let it through.
    fn put(&self, out: &mut [u8]) -> Used
        requires { BlockStorable self.now.time.0 self.now.list.now self.now.limit (length out.old) }
        ensures { BlockStored self.now.base.0 self.now.time.0 self.now.feedback self.now.list.now self.now.limit out.old result out.new }
    {
        let Plan {
            chunks,
            used,
            bytes,
            taken,
        } = twcc_plan::plan_chunks(self.list, self.limit, out);
        deltas::put_deltas(&self.list[..taken], chunks, &mut out[8..used]);
        out[used..bytes].fill(0);
        self.put_header(taken, out);
        Used { bytes, taken }
    }
}

// Writes a block of the list's first entries, as many as the limit allows. On refusal the buffer stays as it was, otherwise
// its bytes past the block do. The parts of a block come one by one, as the C interface and `write_unique` have them.
pub fn write(
    base: Seq,
    time: RefTime,
    feedback: u8,
    list: &[i32],
    limit: Option<usize>,
    out: &mut [u8],
) -> Result<Used, Refusal>
    ensures { Wrote base.0 time.0 feedback list.now limit out.old result out.new }
{
    let block = Block {
        base,
        time,
        feedback,
        list,
        limit,
    };
    block.check(out.len())?;
    Ok(block.put(out))
}
