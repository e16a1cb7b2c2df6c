// Numbers as bytes hold them, the high byte first.

// A number of few bytes. What a recording has of it fills the low bits of a larger one.
pub trait Element: Copy + PartialEq {
    // How many bytes it has.
    const WIDTH: usize;

    // The number whose bits are the low bits of another. An `as` would have to lose none.
    fn low(n: u64) -> Self;
}

impl Element for u8 {
    const WIDTH: usize = 1;

    fn low(n: u64) -> u8 {
        (n % 256) as u8
    }
}

impl Element for u16 {
    const WIDTH: usize = 2;

    fn low(n: u64) -> u16 {
        (n % 65536) as u16
    }
}

impl Element for u32 {
    const WIDTH: usize = 4;

    fn low(n: u64) -> u32 {
        (n % 4294967296) as u32
    }
}

impl Element for i32 {
    const WIDTH: usize = 4;

    fn low(n: u64) -> i32 {
        u32::low(n).cast_signed()
    }
}

// The number at a place, counted in numbers of a width; past the end stand zeros.
pub fn nth(s: &[u8], width: usize, place: usize) -> u64 {
    let at = width.saturating_mul(place);
    (0..width).fold(0, |n, k| {
        let byte = s.get(at.saturating_add(k)).copied().unwrap_or(0);
        n << 8 | u64::from(byte)
    })
}
