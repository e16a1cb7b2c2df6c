// Writing the generic NACK's entries: those of a store's numbers, into bytes that the caller lends.
#![tactic(auto)]

ghost use Rattle.std.specs.Prelude.{◌≡◌, ◌+◌, ◌≤◌, length};
ghost use Rattle.std.proofs.lemmas.List.Edits.{sets};
ghost use Rattle.nack_store.specs.Bits.{bit_of, window, numbers_of};
ghost use Rattle.nack_store.specs.Promise.{AsStore};
ghost use Rattle.nack.specs.Entries.{entries_of, nack_bytes, entry_bytes};
ghost use Rattle.nack_write.specs.Promise.{Next, Wrote};

use nack_store::STORE;
use refusal::Refusal;

// The bytes of the most entries that a store needs: 3,856 of them.
const MOST: usize = 15424;

// Bytes as a store, whose type says its size.
fn sized(bytes: &[u8]) -> Result<&[u8; STORE], Refusal>
    ensures { AsStore bytes.now result }
{
    bytes.as_array().ok_or(Refusal::StoreLength(bytes.len()))
}

// The bits of sixteen numbers, the first worth 1. At the end of the store there are no three bytes to read as one number.
#[tactic(auto, using(crate::proofs::Scan::window_of_three))]
fn window16(store: &[u8; STORE], first: usize) -> u16
    ensures { result ≡ window (bit_of store.now) first 16 }
{
    let at = first / 8;
    let bits = octets::byte_at(store, at)
        + 256 * octets::byte_at(store, at + 1)
        + 65536 * octets::byte_at(store, at + 2);
    ((bits >> (first % 8)) % 65536) as u16
}

// The first number from a number on that the store has: it stands in that number's byte, or in the next that is not 0.
#[tactic(auto, using(crate::proofs::Scan::scan_steps))]
fn next_from(store: &[u8; STORE], first: usize) -> Option<usize>
    ensures { Next store.now first result }
{
    let left = *store.get(first / 8)? >> (first % 8);
    // In a dense set it mostly is that number itself, with which the processor goes on without waiting for a count of zeros.
    if left % 2 == 1 {
        return Some(first);
    }
    if left != 0 {
        return Some(first + left.trailing_zeros() as usize);
    }
    for at in first / 8 + 1..STORE {
        if store[at] != 0 {
            return Some(8 * at + store[at].trailing_zeros() as usize);
        }
    }
    None
}

// The numbers of a store that open its entries: the lowest one, and then the lowest past the sixteen that the last covers.
#[derive(Clone, Copy, Debug)]
struct Openers<'a> {
    store: &'a [u8; STORE],
    from: usize,
}

impl<'a> Iterator for Openers<'a> {
    ghost use Rattle.std.specs.Iterator.{item_count};
    ghost use Rattle.nack_write.specs.Left.{entries_left, GivesOpener};

    type Item = usize;

    ghost next_gives = { GivesOpener };

    ghost remaining = { item_count entries_left };

    #[tactic(auto, using(crate::proofs::Giving::give_steps))]
    fn next(&mut self) -> Option<usize> {
        let number = next_from(self.store, self.from)?;
        self.from = number + 17;
        Some(number)
    }
}

// How many entries the store's numbers need.
#[tactic(auto, using(crate::proofs::Giving::left_all, nack::proofs::Opens::most_entries_lem))]
fn count_entries(store: &[u8; STORE]) -> usize
    ensures { result ≡ length (entries_of (numbers_of store.now)) }
{
    Openers { store, from: 0 }.count()
}

// One entry, which fits, the high byte of each number first. `lent::put16` asks of each byte whether it does, fifteen
// instructions more an entry.
fn put_entry(out: &mut [u8], at: usize, number: u16, mask: u16)
    requires { at + 4 ≤ length out.old }
    ensures { out.new ≡ sets out.old at (entry_bytes number mask) }
{
    let [a, b] = number.to_be_bytes();
    let [c, d] = mask.to_be_bytes();
    out[at] = a;
    out[at + 1] = b;
    out[at + 2] = c;
    out[at + 3] = d;
}

// The entries of the store's numbers, which fit; how many bytes that is.
fn put_entries(store: &[u8; STORE], out: &mut [u8]) -> usize
    requires { length (nack_bytes store.now) ≤ length out.old }
    ensures { (result ≡ length (nack_bytes store.now)) × (out.new ≡ sets out.old 0 (nack_bytes store.now)) }
{
    let mut at = 0;
    for number in (Openers { store, from: 0 }) {
        put_entry(out, at, number as u16, window16(store, number + 1));
        at += 4;
    }
    at
}

// Writes the entries of a store's numbers. Where the most entries fit, nothing has to be counted first.
#[tactic(auto, using(crate::proofs::Putting::length_nack, nack::proofs::Opens::most_entries_lem))]
pub fn write(store: &[u8], out: &mut [u8]) -> Result<usize, Refusal>
    ensures { Wrote store.now out.old result out.new }
{
    let store = sized(store)?;
    let present = out.len();
    if present < MOST {
        let needed = 4 * count_entries(store);
        if present < needed {
            return Err(Refusal::OutputTooSmall { needed, present });
        }
    }
    Ok(put_entries(store, out))
}
