// Reading the generic NACK's entries: the numbers that they name, into a list that the caller lends.
#![tactic(auto)]

ghost use Rattle.std.specs.Prelude.{◌≡◌, ◌+◌, ◌≤◌, length};
ghost use Rattle.std.specs.Int.Count.{ones};
ghost use Rattle.std.proofs.lemmas.List.Edits.{sets};
ghost use Rattle.nack.specs.Entries.{masked, named};
ghost use Rattle.nack.specs.Promise.{capped};
ghost use Rattle.nack_read.specs.Named.{named_by};
ghost use Rattle.nack_read.specs.Promise.{Read};

use kinds::Seq;
use refusal::Refusal;

// How many numbers an entry with this mask names.
fn count_named(mask: u16) -> usize
    ensures { result ≡ 1 + ones mask }
{
    1 + mask.count_ones() as usize
}

// How many numbers all entries name, at most the largest number.
#[tactic(auto, using(crate::proofs::Listing::counted_more))]
fn count_listed(entries: &[[u8; 4]]) -> usize
    ensures { result ≡ capped (length (named_by entries.now)) }
{
    let mut listed: usize = 0;
    for &[_, _, c, d] in entries {
        listed = listed.saturating_add(count_named(u16::from_be_bytes([c, d])));
    }
    listed
}

// What an entry with a full mask names, into the front of the list. The loop has a constant length, so that it is unrolled.
#[tactic(auto, using(crate::proofs::Listing::full_steps))]
fn list_full(list: &mut [u16], number: Seq)
    requires { 17 ≤ length list.old }
    ensures { list.new ≡ sets list.old 0 (named number.0 65535) }
{
    for j in 0..17 {
        list[usize::from(j)] = number.after(j).0;
    }
}

// What one entry names, into the list from a place on; the place after it. A part of the list for the two costs seven
// instructions more for each entry.
fn list_entry(list: &mut [u16], place: usize, number: Seq, mask: u16) -> usize
    requires { place + length (named number.0 mask) ≤ length list.old }
    ensures { (result ≡ place + length (named number.0 mask)) × (list.new ≡ sets list.old place (named number.0 mask)) }
{
    if mask == u16::MAX {
        list_full(&mut list[place..], number);
        return place + 17;
    }
    list[place] = number.0;
    let mut next = place + 1;
    // Each turn takes the lowest bit away, so that there are as many as the mask has bits.
    let mut left = mask;
    while left != 0 {
        list[next] = number.after(left.trailing_zeros() as u16 + 1).0;
        next += 1;
        left &= left - 1;
    }
    next
}

// What all entries name, which fits; how many numbers that is. A `for` over the entries takes up to twice as long on random masks:
// docs/DESIGN-PASS.md has the times.
fn list_entries(entries: &[[u8; 4]], list: &mut [u16]) -> usize
    requires { length (named_by entries.now) ≤ length list.old }
    ensures { (result ≡ length (named_by entries.now)) × (list.new ≡ sets list.old 0 (named_by entries.now)) }
{
    let mut place = 0;
    let mut rest = entries;
    while let Some((&[a, b, c, d], behind)) = rest.split_first() {
        let number = Seq(u16::from_be_bytes([a, b]));
        let mask = u16::from_be_bytes([c, d]);
        place = list_entry(list, place, number, mask);
        rest = behind;
    }
    place
}

// Lists the numbers that entries name, in their order, repeats and all. Up to three bytes at the end are ignored. Where even
// full masks fit, nothing has to be counted first.
#[tactic(auto, using(crate::proofs::Listing::entries_named, crate::proofs::Listing::named_by_few))]
pub fn read(bytes: &[u8], list: &mut [u16]) -> Result<usize, Refusal>
    ensures { Read bytes.now list.old result list.new }
{
    let (entries, _) = bytes.as_chunks::<4>();
    let present = list.len();
    if entries.len() > present / 17 {
        let needed = count_listed(entries);
        if present < needed {
            return Err(Refusal::OutputTooSmall { needed, present });
        }
    }
    Ok(list_entries(entries, list))
}
