//! A mask as it is written.

ghost use Rattle.std.specs.Prelude.{◌≡◌, ◌<◌, IfSome};
ghost use Rattle.reel.specs.Masks.{digit_of, mask_of};

/// The number of a hexadecimal digit.
fn digit_of(byte: u8) -> Option<u8>
    ensures value { result ≡ digit_of byte }
    ensures small { IfSome result (λ digit. digit < 16) }
{
    match byte {
        48..=57 => Some(byte - 48),
        65..=70 => Some(byte - 55),
        97..=102 => Some(byte - 87),
        _ => None,
    }
}

/// The byte of a mask that is written as `0x3f`; `None` where the text is none.
pub fn mask_of(text: &[u8]) -> Option<u8>
    ensures { result ≡ mask_of text.now }
{
    match text {
        [b'0', b'x', high, low] => {
            let high = digit_of(*high)?;
            let low = digit_of(*low)?;
            Some(16 * high + low)
        }
        _ => None,
    }
}
