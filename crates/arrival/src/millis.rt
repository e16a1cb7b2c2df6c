// Ticks as milliseconds: four ticks are one.
ghost use Rattle.std.specs.Prelude.{◌≡◌, ◌<◌, nat_abs};
ghost use Rattle.std.specs.Float.Ieee.{of_bits};
ghost use Rattle.std.specs.Float.{binary64};
ghost use Rattle.arrival.specs.Cursor.{exact_end};
ghost use Rattle.arrival.specs.Overlay.{millisecond_bits};

// 2^53: a float has 53 binary digits.
pub(crate) const EXACT_END: u64 = 9007199254740992;

// A quarter of a tick, exactly.
#[tactic(auto, using(crate::proofs::Division::quarter_read))]
pub(crate) fn milliseconds(tick: i64) -> f64
    requires { nat_abs tick < exact_end }
    ensures { result ≡ of_bits binary64 (millisecond_bits tick) }
{
    tick as f64 / 4.0
}
