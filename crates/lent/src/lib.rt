// Exact stores into a lent buffer, for the writers. Bytes that would lie past the buffer's end fall away, so that a place goes beside the
// buffer: there may be no part from it on. A writer that tested its room loses none.
#![tactic(auto)]

ghost use Rattle.std.specs.Prelude.{◌≡◌, [], ◌∷◌, ◌+◌, ◌≤◌};
ghost use Rattle.octets.specs.Big.{be_bytes};
ghost use Rattle.lent.specs.Bytes.{zero_bytes, fitting};
ghost use Rattle.lent.specs.Store.{Stored};

// One byte.
pub fn put(out: &mut [u8], at: usize, byte: u8)
    ensures { Stored out.old at (byte ∷ []) out.new }
{
    if at < out.len() {
        out[at] = byte;
    }
}

// A 16-bit number, the high byte first.
pub fn put16(out: &mut [u8], at: usize, number: u16)
    ensures { Stored out.old at (be_bytes 2 number) out.new }
{
    if at < out.len() {
        let [high, low] = number.to_be_bytes();
        put(out, at, high);
        put(out, at + 1, low);
    }
}

// Where the bytes from a place on end that a buffer has room for.
fn end_of(room: usize, at: usize, bytes: usize) -> usize
    requires { at ≤ room }
    ensures { result ≡ at + fitting room at bytes }
{
    at + bytes.min(room - at)
}

// So many zeros.
pub fn zeros(out: &mut [u8], at: usize, count: usize)
    ensures { Stored out.old at (zero_bytes count) out.new }
{
    let start = at.min(out.len());
    let end = end_of(out.len(), start, count);
    out[start..end].fill(0);
}

// All bytes of `from`.
pub fn copy(out: &mut [u8], at: usize, from: &[u8])
    ensures { Stored out.old at from.now out.new }
{
    let start = at.min(out.len());
    let end = end_of(out.len(), start, from.len());
    out[start..end].copy_from_slice(&from[..end - start]);
}
