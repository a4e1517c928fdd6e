// A pattern by which a write shows: no byte of it is a letter, a sign or a kind, no cell of it is zero, a byte or a position.

// An element that has a value of the pattern for each place.
pub(crate) trait Patterned: Copy + PartialEq {
    fn at(place: usize) -> Self;
}

impl Patterned for u8 {
    fn at(place: usize) -> u8 {
        128 + (place % 127) as u8
    }
}

impl Patterned for u32 {
    fn at(place: usize) -> u32 {
        0xa5a5_0000 + (place % 65536) as u32
    }
}

// Writes the pattern over a room.
pub(crate) fn fill<T: Patterned>(room: &mut [T]) {
    for (place, element) in room.iter_mut().enumerate() {
        *element = T::at(place);
    }
}
