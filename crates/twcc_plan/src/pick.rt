// The chunk picked for what remains of a list. Symbols and chunks are numbers: a symbol is a digit that is added and multiplied, a
// chunk the 16 bits that its digits make.
ghost use Rattle.std.specs.Prelude.{◌≡◌, map, true, cond, ◌+◌, ◌%◌, ◌≤◌, ◌<◌, min, eqb, length, get_or, take, drop};
ghost use Rattle.twcc.specs.Words.{symbol_of};
ghost use Rattle.octets.specs.Bounds.{Below};
ghost use Rattle.twcc.specs.Chunks.{longest_run, pack};
ghost use Rattle.twcc_plan.specs.Front.{front};
ghost use Rattle.twcc_plan.specs.Choice.{run_of, ones_of, is_run, is_one, chunk_for};
ghost use Rattle.twcc_plan.specs.Picked.{picked, Places, vector_of, run_picked, weight_of, Gathered, two_of, Known, Alike, Settles};

use crate::count;
use twcc::{LONGEST_RUN, ONES_END, RUN_WEIGHT, RUNS_END};

// A chunk as it is written, the entries that it takes, and their delta bytes.
#[derive(Clone, Copy, Debug, PartialEq, Eq)]
pub(crate) struct Picked {
    pub chunk: usize,
    pub count: usize,
    pub width: usize,
}

// The symbol at a place of the list, 0 past the end.
fn symbol_at(list: &[i32], at: usize) -> u32
    ensures { (result ≡ get_or (map symbol_of list.now) at 0) × (result ≤ 2) }
{
    list.get(at).map_or(0, |word| twcc::symbol(*word))
}

// The run of a symbol from the front, where it is known up to `from`: most runs end soon, long ones go by blocks.
fn run_from<const SYMBOL: u32>(rest: &[i32], from: usize) -> usize
    requires { Known (map symbol_of rest.now) SYMBOL from }
    ensures { result ≡ min longest_run (front (eqb SYMBOL) (map symbol_of rest.now)) }
{
    let goes_on = |word: i32| -> bool
        ensures { result ≡ eqb SYMBOL (symbol_of word) }
    { SYMBOL == twcc::symbol(word) };
    let end = LONGEST_RUN.min(rest.len());
    let far = from + 32;
    let n = from + count::one_by_one(&rest[from..far.min(end)], &goes_on);
    if n < far {
        return n;
    }
    n + count::by_blocks::<32, _>(&rest[n..end], &goes_on)
}

// The same of any symbol: each has loops of its own, which is quicker.
fn run_known(rest: &[i32], symbol: u32, from: usize) -> usize
    requires { (symbol ≤ 2) × Known (map symbol_of rest.now) symbol from }
    ensures { result ≡ min longest_run (front (eqb symbol) (map symbol_of rest.now)) }
{
    match symbol {
        0 => run_from::<0>(rest, from),
        1 => run_from::<1>(rest, from),
        _ => run_from::<2>(rest, from),
    }
}

// The run of equal symbols from the front.
fn run_length(rest: &[i32]) -> usize
    ensures { result ≡ run_of (map symbol_of rest.now) }
{
    run_known(rest, symbol_at(rest, 0), 0)
}

// The entries at the front with symbol 0 or 1, at most 14.
fn ones_length(rest: &[i32]) -> usize
    ensures { result ≡ ones_of (map symbol_of rest.now) }
{
    count::one_by_one(&rest[..rest.len().min(14)], &|word| twcc::symbol(word) < 2)
}

fn is_run(r: usize, b: usize) -> bool
    ensures { result ≡ is_run r b }
{
    r > 7 && r >= b
}

fn is_one(b: usize, left: usize) -> bool
    ensures { result ≡ is_one b left }
{
    b == 14 || b > 7 && b == left
}

// A chunk of a run.
pub(crate) fn run_picked(symbol: usize, r: usize) -> Picked
    requires { (symbol ≤ 3) × (r ≤ longest_run) }
    ensures { result ≡ run_picked symbol r }
{
    Picked {
        chunk: symbol * RUN_WEIGHT + r,
        count: r,
        width: symbol * r,
    }
}

// A vector of so many places for digits of a base, `top` its highest bits.
fn vector(rest: &[i32], base: usize, places: usize, top: usize) -> Picked
    requires { Places base places top }
    ensures { result ≡ vector_of base places top (map symbol_of rest.now) }
{
    let mut digits = 0;
    let mut width = 0;
    for place in 0..places {
        let symbol = symbol_at(rest, place) as usize;
        digits = digits * base + symbol;
        width += symbol;
    }
    Picked {
        chunk: top + digits,
        count: octets::lesser(places, rest.len()),
        width,
    }
}

// The chunk for what remains, count by count.
fn pick_counted(rest: &[i32]) -> Picked
    ensures { result ≡ picked (chunk_for (map symbol_of rest.now)) }
{
    let r = run_length(rest);
    let b = ones_length(rest);
    if is_run(r, b) {
        return run_picked(symbol_at(rest, 0) as usize, r);
    }
    if is_one(b, rest.len()) {
        return vector(rest, 2, 14, RUNS_END);
    }
    vector(rest, 4, 7, ONES_END)
}

// A weight for a small delta, else 0.
fn weighed(word: i32, weight: u32) -> u32
    ensures { (result ≡ cond (eqb (symbol_of word % 2) 1) weight 0) × (result ≤ weight) }
{
    if twcc::small(word) == 1 { weight } else { 0 }
}

// Seven symbols as two-bit digits, their delta bytes, and how many of them are 2.
#[derive(Clone, Copy, Debug, PartialEq, Eq)]
pub(crate) struct Seven {
    pub two: u32,
    pub width: u32,
    pub twos: u32,
}

// A two-bit vector of seven symbols.
fn two_picked(a: Seven) -> Picked
    ensures { result ≡ two_of a }
{
    Picked {
        chunk: ONES_END + a.two as usize,
        count: 7,
        width: a.width as usize,
    }
}

// What remains where no delta of its first fourteen is large.
#[derive(Clone, Copy)]
struct Plain<'a> {
    rest: &'a [i32],
    ghost ones: { ones_of (map symbol_of rest.now) ≡ 14 },
}

impl Plain<'_> {
    // Fourteen one-bit digits below 65,536, and above that their delta bytes, as one sum without a jump.
    fn weigh(&self) -> u32
        ensures { result ≡ weight_of 14 (map symbol_of self.now.rest.now) }
    {
        let mut sum = 0;
        let mut weight = 8192;
        for word in &self.rest[..14] {
            sum += weighed(*word, 65536 + weight);
            weight /= 2;
        }
        sum
    }

    // Their chunk: equal symbols are a run, any other a one-bit vector.
    fn pick(&self) -> Picked
        ensures { result ≡ picked (chunk_for (map symbol_of self.now.rest.now)) }
    {
        let sum = self.weigh();
        let width = sum / 65536;
        if width % 14 == 0 {
            let symbol = width / 14;
            return run_picked(symbol as usize, run_known(self.rest, symbol, 14));
        }
        Picked {
            chunk: RUNS_END + (sum % 65536) as usize,
            count: 14,
            width: width as usize,
        }
    }
}

// What remains where it is fourteen entries or more, which are looked at together.
#[derive(Clone, Copy)]
struct Many<'a> {
    rest: &'a [i32],
    ghost fourteen: { 14 ≤ length rest.now },
}

impl Many<'_> {
    // Whether no delta of the first fourteen is large, by the bits that their words have together. False settles nothing: it may be
    // a word out of range.
    fn plain(&self) -> bool
        ensures { result ≡ true → ones_of (map symbol_of self.now.rest.now) ≡ 14 }
    {
        let mut bits = 0;
        for word in &self.rest[..14] {
            bits |= *word;
        }
        (0..=65535).contains(&bits) && bits / 256 % 128 == 0
    }

    fn gather(&self, at: usize) -> Seven
        requires { at ≤ 7 }
        ensures { Gathered (drop at (map symbol_of self.now.rest.now)) result }
    {
        let mut two = 0;
        let mut width = 0;
        let mut twos = 0;
        for word in &self.rest[at..at + 7] {
            let symbol = twcc::symbol(*word);
            two = two * 4 + symbol;
            width += symbol;
            twos += symbol / 2;
        }
        Seven { two, width, twos }
    }

    // The run where seven symbols are equal, if it makes a chunk. One of eight to thirteen does if no one-bit symbol would be counted
    // on behind it: its symbol is 2, or the next one is. They differ, so either makes their sum 2 or more.
    fn run_ahead(&self, first: u32) -> Option<usize>
        requires { Alike (map symbol_of self.now.rest.now) first }
        ensures { Settles (map symbol_of self.now.rest.now) result }
    {
        let r = run_known(self.rest, first, 7);
        let settled = r > 13 || r > 7 && first + twcc::symbol(self.rest[r]) >= 2;
        settled.then_some(r)
    }

    // The run from the front, if it makes a chunk: seven symbols that are not all equal make none.
    fn run_at(&self, two: u32) -> Option<usize>
        requires { (two ≡ pack 4 7 (map symbol_of self.now.rest.now)) × (two ≤ 32768) }
        ensures { Settles (map symbol_of self.now.rest.now) result }
    {
        let first = two / 4096;
        if two != first * 5461 {
            return None;
        }
        self.run_ahead(first)
    }

    // The chunk for any fourteen: a run, or else a 2 among them settles that it is a two-bit vector. The count by count is left for
    // words out of range.
    fn pick(&self) -> Picked
        ensures { result ≡ picked (chunk_for (map symbol_of self.now.rest.now)) }
    {
        let a = self.gather(0);
        if let Some(r) = self.run_at(a.two) {
            return run_picked((a.two / 4096) as usize, r);
        }
        // Two tests, since one of both takes four in a hundred more instructions.
        if 0 < a.twos {
            return two_picked(a);
        }
        if 0 < self.gather(7).twos {
            return two_picked(a);
        }
        pick_counted(self.rest)
    }
}

// The chunk for what remains.
pub(crate) fn pick(rest: &[i32]) -> Picked
    ensures { result ≡ picked (chunk_for (map symbol_of rest.now)) }
{
    if rest.len() < 14 {
        return pick_counted(rest);
    }
    let many = Many { rest };
    if many.plain() {
        return Plain { rest }.pick();
    }
    many.pick()
}
