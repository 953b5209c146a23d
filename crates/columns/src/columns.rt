//! The columns of what commands list.

ghost use Rattle.std.specs.Prelude.{◌≡◌, ◌++◌, replicate, decimal, OnOk};
ghost use Rattle.columns.specs.Columns.{on_the_right, on_the_left};

use itoa::Buffer;
use std::alloc::AllocError;

/// Writes blanks.
pub fn put_blanks(text: &mut Vec<u8>, many: usize) -> Result<(), AllocError>
    ensures { OnOk result (text.new.items ≡ text.old.items ++ replicate many 32) }
{
    for _ in 0..many {
        text.push(b' ')?;
    }
    Ok(())
}

/// Writes words on the right of so many columns.
fn put_right(text: &mut Vec<u8>, width: usize, words: &[u8]) -> Result<(), AllocError>
    ensures { OnOk result (text.new.items ≡ text.old.items ++ on_the_right width words.now) }
{
    put_blanks(text, width.saturating_sub(words.len()))?;
    text.extend_from_slice(words)
}

/// Writes words on the left of so many columns.
pub fn put_left(text: &mut Vec<u8>, width: usize, words: &[u8]) -> Result<(), AllocError>
    ensures { OnOk result (text.new.items ≡ text.old.items ++ on_the_left width words.now) }
{
    text.extend_from_slice(words)?;
    put_blanks(text, width.saturating_sub(words.len()))
}

/// Writes a number on the right of so many columns.
pub fn put_number(text: &mut Vec<u8>, width: usize, number: u128) -> Result<(), AllocError>
    ensures { OnOk result (text.new.items ≡ text.old.items ++ on_the_right width (decimal number)) }
{
    let mut digits = Buffer::new();
    put_right(text, width, digits.format(number).as_bytes())
}

/// Writes a number as it is.
pub fn put_digits(text: &mut Vec<u8>, number: usize) -> Result<(), AllocError>
    ensures { OnOk result (text.new.items ≡ text.old.items ++ decimal number) }
{
    let mut digits = Buffer::new();
    text.extend_from_slice(digits.format(number).as_bytes())
}
