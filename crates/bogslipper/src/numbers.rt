// `bogslipper nack`: the numbers that a generic NACK's entries name.
use refusal::Refusal;

// Entries are read one by one, so that seventeen places are room enough.
pub fn report(out: &impl Print, bytes: &[u8]) -> Result<(), Refusal> {
    let size = bytes.len();
    let _ = println!(out;
        "bytes {size}, entries {}, ignored at the end {}",
        size / 4,
        size % 4
    );
    let _ = println!(out; " entry  number");
    for (entry, bytes) in bytes.chunks_exact(4).enumerate() {
        list(out, bytes, entry)?;
    }
    Ok(())
}

// The numbers of one entry.
fn list(out: &impl Print, bytes: &[u8], entry: usize) -> Result<(), Refusal> {
    let mut numbers = [0u16; 17];
    let count = nack_read::read(bytes, &mut numbers)?;
    for number in numbers.iter().take(count) {
        let _ = println!(out; "{entry:>6}{number:>8}");
    }
    Ok(())
}
