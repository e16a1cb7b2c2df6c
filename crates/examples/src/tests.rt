use nack_store::{STORE, sized};
use refusal::Refusal;

// Bytes of a store's size are taken as one, and those of another give that size.
#[test]
fn bytes_of_its_size_are_a_store(rt: HostRuntime) {
    let mut bytes = [0; STORE + 1];
    bytes[8191] = 128;
    let store = sized(&bytes[..STORE]);
    assert_eq!(rt; store.map(|store| store[8191]), Ok(128));
    for size in [0, 8191, 8193] {
        let refused = sized(&bytes[..size]).map(|store| store[0]);
        assert_eq!(rt; refused, Err(Refusal::StoreLength(size)));
    }
}
