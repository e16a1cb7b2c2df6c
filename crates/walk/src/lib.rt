// The walk over a compound that keeps the lent bytes with its offset (compound.rs, the iterator): thin methods over
// compound's step.
#![tactic(auto)]

ghost use Rattle.walk.specs.Promises.{Starts, Steps, HandsBackPart, Follows};

use compound::Walked;

// Where a walk stands: the lent bytes, and the offset of its next packet.
#[derive(Clone, Copy, Debug, PartialEq, Eq)]
pub struct Compound<'a> {
    pub bytes: &'a [u8],
    pub offset: usize,
}

impl<'a> Compound<'a> {
    // The walk before its first step.
    pub fn new(bytes: &'a [u8]) -> Self
        ensures { Starts bytes.entry result }
    {
        Compound { bytes, offset: 0 }
    }

    // What the step finds at the walk's offset, and where the walk goes on.
    pub fn step(self) -> Walked
        ensures { Steps self.entry result }
    {
        compound::walk_step(self.bytes, self.offset)
    }

    // The packet at the walk's offset, as a part of the lent bytes; empty where the step finds none.
    pub fn part(self) -> &'a [u8]
        ensures { HandsBackPart self.entry result }
    {
        compound::walk_part(self.bytes, self.offset)
    }

    // The walk after the step.
    pub fn advance(self) -> Self
        ensures { Follows self.entry result }
    {
        Compound {
            bytes: self.bytes,
            offset: compound::walk_next(self.bytes, self.offset),
        }
    }
}
