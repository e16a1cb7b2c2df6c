// The numbers that must not be taken for one another, each a type of its own.
#![tactic(auto)]

ghost use Rattle.std.specs.Prelude.{◌≡◌};
ghost use Rattle.kinds.specs.Seq.{later};

// A packet's sequence number. It moves on modulo 65,536.
#[derive(Clone, Copy, Debug, PartialEq, Eq)]
pub struct Seq(pub u16);

// A reference time: a count of 64 ms.
#[derive(Clone, Copy, Debug, PartialEq, Eq)]
pub struct RefTime(pub u32);

// A point in time: a count of 250 µs.
#[derive(Clone, Copy, Debug, PartialEq, Eq, PartialOrd, Ord)]
pub struct Tick(pub i64);

impl Seq {
    // The number of the packet that comes so many packets later.
    pub fn after(self, packets: u16) -> Seq
        ensures { result.0 ≡ later self.0 packets }
    {
        Seq(self.0.wrapping_add(packets))
    }

    // The next packet's number.
    pub fn next(self) -> Seq
        ensures { result.0 ≡ later self.0 1 }
    {
        self.after(1)
    }
}
