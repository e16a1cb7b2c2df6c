// The delta bytes of a block's entries, chunk by chunk. What stores those of some words puts them at the front of the room that it
// is lent, and tells how many they are: a run's words alone, those of a vector with a byte or two too many perhaps, which are stored
// over by what follows. That words can be written and have room is asked of list and buffer together, which are cut anew at each step,
// so that no type keeps it.
ghost use Rattle.std.specs.Prelude.{◌≡◌, map, ◌+◌, ◌*◌, ◌-◌, ◌≤◌, ◌<◌, length, take, ◌++◌, replicate};
ghost use Rattle.octets.specs.Big.{be_bytes};
ghost use Rattle.octets.specs.Bounds.{Below};
ghost use Rattle.twcc.specs.Words.{Valid, AllValid, symbol_of, bits16, delta_bytes, deltas};
ghost use Rattle.twcc_write.specs.Stores.{Begins, Stored, WordStorable, Storable, ChunkStorable, Carriable};

use twcc::{LARGE_RUNS, ONES_END, RUN_WEIGHT, RUNS_END};

// A delta's 16 bits, the high byte first.
fn two_bytes(word: i32) -> [u8; 2]
    requires { Valid word }
    ensures { result ≡ be_bytes 2 (bits16 word) }
{
    let [low, high, ..] = word.to_le_bytes();
    [high, low]
}

// The delta bytes of a word, and no more.
fn put_exact(word: i32, out: &mut [u8]) -> usize
    requires { WordStorable word (symbol_of word) out.old }
    ensures { Stored (delta_bytes word) result out.old out.new }
{
    let [high, low] = two_bytes(word);
    match twcc::symbol(word) {
        0 => 0,
        1 => {
            out[0] = low;
            1
        }
        _ => {
            out[0] = high;
            out[1] = low;
            2
        }
    }
}

// The same of a word with at most so many, without a jump by symbol: that many are stored.
fn put_most<const MOST: usize>(word: i32, out: &mut [u8]) -> usize
    requires { WordStorable word MOST out.old }
    ensures { Begins (delta_bytes word) result out.new }
{
    let [high, low] = two_bytes(word);
    let small = twcc::small(word);
    match MOST {
        0 => 0,
        1 => {
            out[0] = low;
            small as usize
        }
        _ => {
            out[0] = if small == 1 { low } else { high };
            out[1] = low;
            twcc::symbol(word) as usize
        }
    }
}

// The same of any word; where two bytes may be too many, exactly.
fn put_word(word: i32, out: &mut [u8]) -> usize
    requires { WordStorable word (symbol_of word) out.old }
    ensures { Begins (delta_bytes word) result out.new }
{
    if out.len() < 2 {
        return put_exact(word, out);
    }
    put_most::<2>(word, out)
}

// Word by word. Out of line, as the run below: so the loop over the chunks keeps what it needs in registers.
#[inline(never)]
fn put_each(words: &[i32], out: &mut [u8]) -> usize
    requires { Storable words.now out.old }
    ensures { Begins (deltas words.now) result out.new }
{
    let mut p = 0;
    for word in words {
        p += put_word(*word, &mut out[p..]);
    }
    p
}

// A whole vector, where there is room for the most bytes of each of its words.
fn put_whole<const N: usize, const MOST: usize>(words: &[i32; N], out: &mut [u8]) -> usize
    requires { (MOST * N ≤ length out.old) × AllValid words.now × Below (MOST + 1) (map symbol_of words.now) }
    ensures { Begins (deltas words.now) result out.new }
{
    let mut p = 0;
    for word in words {
        p += put_most::<MOST>(*word, &mut out[p..]);
    }
    p
}

// A vector of N words with at most MOST bytes each: all at once where it is whole and not the last.
fn put_vector<const N: usize, const MOST: usize>(words: &[i32], out: &mut [u8]) -> usize
    requires { (N ≤ 14) × (MOST ≤ 2) × Storable words.now out.old × Below (MOST + 1) (map symbol_of words.now) }
    ensures { Begins (deltas words.now) result out.new }
{
    match words.as_array::<N>() {
        Some(whole) if MOST * N <= out.len() => put_whole::<N, MOST>(whole, out),
        _ => put_each(words, out),
    }
}

// A run of words with N bytes each, and no more.
#[inline(never)]
fn put_run<const N: usize>(words: &[i32], out: &mut [u8]) -> usize
    requires { (N ≤ 2) × Storable words.now out.old × (map symbol_of words.now ≡ replicate (length words.now) N) }
    ensures { Stored (deltas words.now) result out.old out.new }
{
    for (n, word) in words.iter().enumerate() {
        out[N * n..N * n + N].copy_from_slice(&two_bytes(*word)[2 - N..]);
    }
    N * words.len()
}

// A chunk's words. A chunk is its 16 bits as they stand in the block, and where they lie among the numbers is its kind.
fn put_chunk(chunk: usize, words: &[i32], out: &mut [u8]) -> usize
    requires { ChunkStorable chunk words.now out.old }
    ensures { Begins (deltas words.now) result out.new }
{
    match chunk {
        ..RUN_WEIGHT => 0,
        ..LARGE_RUNS => put_run::<1>(words, out),
        ..RUNS_END => put_run::<2>(words, out),
        ..ONES_END => put_vector::<14, 1>(words, out),
        _ => put_vector::<7, 2>(words, out),
    }
}

// The delta bytes of a list, behind its chunks.
pub(crate) fn put_deltas(list: &[i32], chunks: usize, body: &mut [u8])
    requires { Carriable list.now chunks body.old }
    ensures { body.new ≡ take (2 * chunks) body.old ++ deltas list.now }
{
    let (chunks, out) = body.split_at_mut(2 * chunks);
    let mut rest = list;
    let mut p = 0;
    for bytes in chunks.chunks_exact(2) {
        let chunk = octets::joined(bytes[0], bytes[1]);
        let (words, behind) = rest.split_at(octets::lesser(twcc::size(chunk), rest.len()));
        p += put_chunk(chunk, words, &mut out[p..]);
        rest = behind;
    }
}
