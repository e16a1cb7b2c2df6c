// The TWCC block reader.
#![tactic(auto)]

mod fill;

ghost use Rattle.twcc_read.specs.Promise.{Reads};

use refusal::Refusal;
use twcc_cursors::Header;

// What a block says: its header, and how many entries it lists.
#[derive(Clone, Copy, Debug, PartialEq, Eq)]
pub struct Listed {
    pub header: Header,
    pub count: usize,
}

// Reads a block of at least eight bytes: the list's front takes the words of its entries. On refusal the list stays as it
// was, otherwise its places past the count listed do.
#[tactic(auto, unfolding(twcc::specs::Block::block_symbols, twcc::specs::Block::listed, twcc_cursors::specs::Cursors::headed, crate::specs::Promise::read_answer), using(crate::proofs::Outcomes::outcomes))]
pub fn read(block: &[u8], list: &mut [i32]) -> Result<Listed, Refusal>
    ensures { Reads block.now list.old result list.new }
{
    let header = Header::of(block)?;
    let counts = twcc_cursors::count(block);
    let count = counts.listed;
    if list.len() < count {
        return Err(Refusal::OutputTooSmall {
            needed: count,
            present: list.len(),
        });
    }
    fill::fill_all(block, usize::from(header.statuses), counts.start, list);
    Ok(Listed { header, count })
}
