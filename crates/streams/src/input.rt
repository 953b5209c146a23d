//! Inputs of bounded length.

ghost use Rattle.std.specs.Prelude.{◌≡◌, ◌≤◌, ◌<◌, length, IfOk, IfErr, IfSome};
ghost use Rattle.streams.specs.declared.input.InputFault.TheVariants.{TooLong};

use std::alloc::Global;
use std::io::{ErrorKind, Read};

/// The most bytes that an input has.
pub const MAX_INPUT: usize = 1_048_576;

/// Why an input is not taken.
#[derive(Clone, Copy, PartialEq, Eq)]
pub enum InputFault {
    /// The reader failed.
    CannotRead,
    /// It has more than 1,048,576 bytes.
    TooLong,
    /// There is no memory for it.
    OutOfMemory,
}

/// All that the reader has, where that is at most 1,048,576 bytes. At most one byte more is read.
pub fn read_input<R: Read>(alloc: Global, input: &mut R) -> Result<Vec<u8>, InputFault>
    ensures short { IfOk result (λ v. length v.items ≤ 1048576) }
    ensures whole { IfOk result (λ v. IfSome (R.remaining input.old) (λ xs. v.items ≡ xs)) }
    ensures long { IfErr result (λ e. e ≡ TooLong → IfSome (R.remaining input.old) (λ xs. 1048576 < length xs)) }
{
    let mut bytes = Vec::new(alloc);
    let mut limited = input.take(1_048_577);
    match limited.read_to_end(&mut bytes) {
        Ok(_) => {}
        Err(e) => {
            return Err(if e.kind() == ErrorKind::OutOfMemory {
                InputFault::OutOfMemory
            } else {
                InputFault::CannotRead
            });
        }
    }
    if bytes.len() > MAX_INPUT {
        return Err(InputFault::TooLong);
    }
    Ok(bytes)
}
