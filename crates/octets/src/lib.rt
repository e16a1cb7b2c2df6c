// Bytes and the numbers that they hold, for all crates that read or write them. `wide`, `lesser` and `bits64` are the library's methods
// under the names that docs/PROOFS.md promises.
#![tactic(auto)]

ghost use Rattle.std.specs.Prelude.{◌≡◌, ◌+◌, ◌*◌, ◌<◌, min, get_or};
ghost use Rattle.octets.specs.Big.{be};
ghost use Rattle.octets.specs.Signed.{bits64};

// A byte where a larger number is wanted.
pub fn wide(byte: u8) -> usize
    ensures { (result ≡ byte) × (result < 256) }
{
    usize::from(byte)
}

// The byte at a place, 0 past the end.
pub fn byte_at(bytes: &[u8], at: usize) -> usize
    ensures { (result ≡ get_or bytes.now at 0) × (result < 256) }
{
    match bytes.get(at) {
        Some(&byte) => wide(byte),
        None => 0,
    }
}

// Two bytes as a number, the high one first.
pub fn joined(high: u8, low: u8) -> usize
    ensures { (result ≡ 256 * high + low) × (result < 65536) }
{
    usize::from(u16::from_be_bytes([high, low]))
}

// The 16-bit number at a place, the high byte first. Bytes past the end count as 0, so that there may be no two for `from_be_bytes`.
pub fn be16_at(bytes: &[u8], at: usize) -> usize
    ensures { (result ≡ be 2 bytes.now at) × (result < 65536) }
{
    if at < bytes.len() {
        256 * byte_at(bytes, at) + byte_at(bytes, at + 1)
    } else {
        0
    }
}

// The lesser of two numbers.
pub fn lesser(a: usize, b: usize) -> usize
    ensures { result ≡ min a b }
{
    a.min(b)
}

// A signed number in two's complement.
pub fn bits64(number: i64) -> u64
    ensures { result ≡ bits64 number }
{
    number.cast_unsigned()
}
