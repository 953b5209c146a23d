//! The numbers that stand in a line of a status.

/// How many numbers a line has at most, if it is none of those that go on with a comma or a space.
const MOST: usize = 10;

/// The first ten numbers of a text, whatever stands between them; 0 for each that it lacks.
pub(crate) fn numbers_of(text: &str) -> [u32; MOST] {
    let mut numbers = [0u32; MOST];
    let mut place: usize = 0;
    let mut is_within = false;
    for byte in text.as_bytes() {
        if byte.is_ascii_digit() {
            if let Some(number) = numbers.get_mut(place) {
                let digit = u32::from(byte.saturating_sub(b'0'));
                *number = number.saturating_mul(10).saturating_add(digit);
            }
            is_within = true;
        } else if is_within {
            place = place.saturating_add(1);
            is_within = false;
        }
    }
    numbers
}

/// A number as a small one; the greatest of these where it is past them.
pub(crate) fn small(number: u32) -> u8 {
    u8::try_from(number).unwrap_or(u8::MAX)
}

/// The same up to 65535.
pub(crate) fn short(number: u32) -> u16 {
    u16::try_from(number).unwrap_or(u16::MAX)
}
