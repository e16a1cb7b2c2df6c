// Lent memory: filled with what a recording has before the call, and held against what it has after it.
use crate::number;
use crate::number::Element;

// What a call is lent.
#[derive(Debug, Drop)]
pub struct Memory<'a> {
    pub bytes: &'a mut [u8],
    pub shorts: &'a mut [u16],
    pub words: &'a mut [i32],
}

// The element at a place of those that bytes hold.
fn nth<T: Element>(s: &[u8], place: usize) -> T {
    T::low(number::nth(s, T::WIDTH, place))
}

// Lends the first so many elements of a room, or all where there are fewer, filled with what bytes hold.
pub fn lend<'a, T: Element>(room: &'a mut [T], count: usize, s: &[u8]) -> &'a mut [T] {
    let count = count.min(room.len());
    let elements = &mut room[..count];
    for (place, element) in elements.iter_mut().enumerate() {
        *element = nth(s, place);
    }
    elements
}

// Whether bytes open with these elements.
pub fn opens_with<T: Element>(s: &[u8], elements: &[T]) -> bool {
    elements
        .iter()
        .enumerate()
        .all(|(place, element)| *element == nth(s, place))
}
