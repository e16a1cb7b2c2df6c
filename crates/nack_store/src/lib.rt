// The set of sequence numbers that a generic NACK is written from, as a bitmap that the caller lends: number n at byte
// n / 8, bit n mod 8, bit 0 worth 1. Each call refuses bytes of another size, and then touches none of them.
#![tactic(auto)]

ghost use Rattle.std.specs.Prelude.{◌≡◌, ◌<◌, length};
ghost use Rattle.std.specs.Int.{from_bool};
ghost use Rattle.refusal.specs.Said.{said};
ghost use Rattle.nack_store.specs.Bits.{with_bit, changed_bit, added, removed, empty_store};
ghost use Rattle.nack_store.specs.Promise.{InPlace, Changed, has_number, count_numbers};

use kinds::Seq;
use refusal::Refusal;

// The size of a store: a bit for each of the 65,536 numbers.
pub const STORE: usize = 8192;

// Bytes as an array, right where they stand. The library's own `as_array` promises only what its array reads.
fn in_place<const N: usize>(bytes: &[u8]) -> &[u8; N]
    requires { length bytes.now ≡ N }
    ensures { result ≡ bytes.entry }
{
    unsafe { &*(bytes.as_ptr() as *const [u8; N]) }
}

// Bytes as a store, whose type says its size: those bytes themselves, and no copy.
pub fn sized(bytes: &[u8]) -> Result<&[u8; STORE], Refusal>
    ensures { InPlace bytes.entry result }
{
    if bytes.len() != STORE {
        return Err(Refusal::StoreLength(bytes.len()));
    }
    Ok(in_place(bytes))
}

// A byte with one bit replaced.
#[tactic(auto, using(crate::proofs::Store::set_with, crate::proofs::Store::clear_with))]
fn with_bit(byte: u8, place: u16, bit: bool) -> u8
    requires { place < 8 }
    ensures { result ≡ with_bit byte place (from_bool bit) }
{
    if bit {
        byte | 1 << place
    } else {
        byte & !(1 << place)
    }
}

// The number's bit replaced.
fn set_bit(store: &mut [u8], number: Seq, bit: bool) -> Result<(), Refusal>
    ensures { Changed store.old (changed_bit store.old number.0 (from_bool bit)) result store.new }
{
    sized(store)?;
    let at = usize::from(number.0 / 8);
    store[at] = with_bit(store[at], number.0 % 8, bit);
    Ok(())
}

// Puts a number into the set.
pub fn add(store: &mut [u8], number: Seq) -> Result<(), Refusal>
    ensures { Changed store.old (added store.old number.0) result store.new }
{
    set_bit(store, number, true)
}

// Takes a number out of the set.
pub fn remove(store: &mut [u8], number: Seq) -> Result<(), Refusal>
    ensures { Changed store.old (removed store.old number.0) result store.new }
{
    set_bit(store, number, false)
}

// Makes the set empty.
#[tactic(auto, using(crate::proofs::Store::replicate_zero))]
pub fn clear(store: &mut [u8]) -> Result<(), Refusal>
    ensures { Changed store.old empty_store result store.new }
{
    sized(store)?;
    store.fill(0);
    Ok(())
}

// Whether a number is in the set.
pub fn has(store: &[u8], number: Seq) -> Result<bool, Refusal>
    ensures { said result ≡ has_number store.now number.0 }
{
    let byte = sized(store)?[usize::from(number.0 / 8)];
    Ok((byte >> (number.0 % 8)) % 2 == 1)
}

// How many numbers are in the set.
pub fn count(store: &[u8]) -> Result<usize, Refusal>
    ensures { said result ≡ count_numbers store.now }
{
    let store = sized(store)?;
    Ok(store.iter().map(|byte| byte.count_ones() as usize).sum())
}
