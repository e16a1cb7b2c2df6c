// Room for what a recording holds.
ghost use Rattle.std.specs.Prelude.{◌≡◌, length};

// So many zeros. The promise is their number alone, which is all that a proof unfolds of a long array.
pub fn zeros<const N: usize>() -> [u8; N]
    ensures { length result ≡ N }
{
    [0; N]
}
