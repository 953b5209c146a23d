//! The names of the files of a reel's tapes.

ghost use Rattle.std.specs.Prelude.{◌≡◌, ◌++◌, IfOk, codes, decimal, string_bytes};
ghost use Rattle.reel.specs.Names.{zeros_before, tape_name};

use std::alloc::{AllocError, Global};

/// How many tapes of a reel have a name.
pub const MOST_TAPES: usize = 999;

/// Zeros that bring a number to three digits.
#[tactic(auto, unfolding(crate::specs::Names::zeros_before))]
fn zeros_before(number: usize) -> &'static str
    ensures { result.now ≡ zeros_before number }
{
    if number < 10 {
        "00"
    } else if number < 100 {
        "0"
    } else {
        ""
    }
}

/// A number behind these zeros, as the name of a tape.
fn name_of(alloc: Global, zeros: &str, number: usize) -> Result<String, AllocError>
    ensures { IfOk result (λ name. string_bytes name ≡ zeros.now ++ decimal number ++ codes ".tape") }
{
    format!(in alloc; "{zeros}{number}.tape")
}

/// The name of the file of a tape, by its number: `001.tape` for the first.
pub fn tape_name(alloc: Global, number: usize) -> Result<String, AllocError>
    ensures { IfOk result (λ name. string_bytes name ≡ tape_name number) }
{
    name_of(alloc, zeros_before(number), number)
}
