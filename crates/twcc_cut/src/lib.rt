// Cutting a list into blocks: the theorem that the cuts can't be seen is stated in specs/ and proved in proofs/; here is the one
// number that goes from block to block.
#![tactic(auto)]

ghost use Rattle.std.specs.Prelude.{◌≡◌};
ghost use Rattle.kinds.specs.Seq.{later};

use kinds::Seq;

// The base of the block after one that took so many entries.
pub fn next_base(base: Seq, taken: usize) -> Seq
    ensures { result.0 ≡ later base.0 taken }
{
    base.after((taken % 65536) as u16)
}
