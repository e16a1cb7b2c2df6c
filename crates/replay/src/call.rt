// The calls of the C interface, in the order of include/bogslipper.h: a row for each, its name and what it takes.
use crate::memory::Memory;
use crate::number::Element;
use exports::Said;

// A number for a parameter of fewer bits.
fn low<T: Element>(n: u64) -> T {
    T::low(n)
}

// What a call says that is given these numbers and this memory, of which it takes what it has parameters for. Its name ends at a
// space. None where there is no such call.
pub fn said(name: &[u8], given: [u64; 5], read: &[u8], lent: Memory<'_>) -> Option<Said> {
    let end = name.iter().position(|byte| *byte == b' ')?;
    let [a, b, c, d, e] = given;
    let Memory {
        bytes,
        shorts,
        words,
    } = lent;
    let said = match &name[..end] {
        b"version" => exports::bog_version(read),
        b"padding_bit" => exports::bog_padding_bit(read),
        b"count" => exports::bog_count(read),
        b"packet_type" => exports::bog_packet_type(read),
        b"length" => exports::bog_length(read),
        b"padding" => exports::bog_padding(read),
        b"check_packet" => exports::bog_check_packet(read, a, low(b)),
        b"compound_parse" => exports::bog_compound_parse(read),
        b"unknown_parse" => exports::bog_unknown_parse(read),
        b"walk_step" => exports::bog_walk_step(read, a),
        b"unknown_write" => exports::bog_unknown_write(low(a), low(b), read, low(c), bytes),
        b"nack_add" => exports::bog_nack_add(bytes, low(a)),
        b"nack_read" => exports::bog_nack_read(read, shorts),
        b"nack_write" => exports::bog_nack_write(read, bytes),
        b"twcc_read" => exports::bog_twcc_read(read, words),
        b"twcc_write" => {
            exports::bog_twcc_write(low(a), low(b), low(c), words, d == 1, e, bytes)
        }
        b"arrivals" => exports::bog_arrivals(low(a)),
        b"arrivals_next" => exports::bog_arrivals_next(a == 1, b.cast_signed(), low(c)),
        _ => return None,
    };
    Some(said)
}
