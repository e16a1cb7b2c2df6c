// When the packets of a TWCC block arrived, in ticks of 250 µs, and in milliseconds for a display.
#![tactic(auto)]

mod millis;

ghost use Rattle.std.specs.Prelude.{◌≡◌, ◌+ℤ◌};
ghost use Rattle.octets.specs.Signed.{bits64};
ghost use Rattle.refusal.specs.Said.{said};
ghost use Rattle.arrival.specs.Cursor.{begun, unplaced, entry_at, moved, next_arrival};
ghost use Rattle.arrival.specs.Overlay.{shown_at, shown_of};

use kinds::{RefTime, Tick};
use refusal::Refusal;
use twcc::{LATEST_TIME, Status};

// When an entry's packet arrived: it did not; the entry can't be read; it did, but stands behind an entry that can't be read, so
// that nobody can say when; or at a tick.
#[derive(Clone, Copy, Debug, PartialEq, Eq)]
pub enum Arrival<T> {
    Missing,
    Unreadable,
    Unplaced,
    At(T),
}

// The same for a display, with milliseconds for ticks.
pub type Overlay = Arrival<f64>;

// The arrivals to come: the tick that the next delta counts from; none behind an entry that can't be read.
#[derive(Clone, Copy, Debug, PartialEq, Eq)]
pub struct Arrivals {
    pub from: Option<Tick>,
}

// An entry's arrival, and the arrivals after it.
#[derive(Clone, Copy, Debug, PartialEq, Eq)]
pub struct Entry {
    pub arrival: Arrival<Tick>,
    pub next: Arrivals,
}

impl Arrivals {
    // The arrivals of a block: the first delta counts from its reference time.
    #[tactic(auto, unfolding(crate::specs::Cursor::begun), using(crate::proofs::Sums::times))]
    pub fn of(time: RefTime) -> Result<Arrivals, Refusal>
        ensures { said result ≡ begun time.0 }
    {
        let t = time.0;
        if LATEST_TIME < t {
            return Err(Refusal::ReferenceTimeTooLarge(t));
        }
        let start = i64::from(t * 256);
        Ok(Arrivals {
            from: Some(Tick(start)),
        })
    }

    // The arrival of the entry with this status word; any word is welcome.
    #[tactic(auto, unfolding(crate::specs::Cursor::next_arrival), using(std::proofs::lemmas::Int::ints))]
    pub fn next(self, word: i32) -> Entry
        ensures { result ≡ next_arrival self word }
    {
        match Status::of(word) {
            Status::Received(delta) => self.moved(delta),
            Status::NotReceived => Entry {
                arrival: Arrival::Missing,
                next: self,
            },
            _ => Entry {
                arrival: Arrival::Unreadable,
                next: Arrivals { from: None },
            },
        }
    }

    // The arrival of a received entry.
    fn moved(self, delta: i16) -> Entry
        ensures { result ≡ moved self delta }
    {
        match self.from {
            Some(tick) => later(tick, delta),
            None => unplaced(),
        }
    }
}

// The arrival so long after a tick, where its milliseconds are exact: far from it where the sum saturates.
fn later(tick: Tick, delta: i16) -> Entry
    ensures { result ≡ entry_at (tick.0 +ℤ delta) }
{
    let at = tick.0.saturating_add(i64::from(delta));
    if millis::EXACT_END <= at.unsigned_abs() {
        return unplaced();
    }
    Entry {
        arrival: Arrival::At(Tick(at)),
        next: Arrivals {
            from: Some(Tick(at)),
        },
    }
}

fn unplaced() -> Entry
    ensures { result ≡ unplaced }
{
    Entry {
        arrival: Arrival::Unplaced,
        next: Arrivals { from: None },
    }
}

impl Arrival<Tick> {
    // The arrival for a display. A tick whose milliseconds no float holds exactly is unplaced.
    #[tactic(auto, unfolding(crate::specs::Overlay::shown_of), using(std::proofs::lemmas::Int::ints))]
    pub fn shown(self) -> Overlay
        ensures { result ≡ shown_of self }
    {
        match self {
            Arrival::Missing => Arrival::Missing,
            Arrival::Unreadable => Arrival::Unreadable,
            Arrival::Unplaced => Arrival::Unplaced,
            Arrival::At(tick) => at(tick.0),
        }
    }
}

fn at(tick: i64) -> Overlay
    ensures { result ≡ shown_at tick }
{
    if millis::EXACT_END <= tick.unsigned_abs() {
        return Arrival::Unplaced;
    }
    Arrival::At(millis::milliseconds(tick))
}

// A tick in two's complement, for callers that take plain unsigned numbers.
pub fn bits(tick: Tick) -> u64
    ensures { result ≡ bits64 tick.0 }
{
    octets::bits64(tick.0)
}
