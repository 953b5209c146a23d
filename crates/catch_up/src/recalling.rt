//! What is recalled, if anything is.

ghost use Rattle.std.specs.Prelude.{◌≡◌, IfOk, OnErr};
ghost use Rattle.catch_up.specs.Recalling.{GoesOnFrom, left_in};

use crate::errand::Errand;
use crate::own::OwnRecalls;
use ballots::Number;
use std::alloc::{AllocError, Global};

/// A number went out: it is recalled no longer.
pub(crate) fn recall_no_longer(recalling: &mut Option<OwnRecalls>, number: Number)
    ensures { recalling.new ≡ left_in number recalling.old }
{
    if let Some(own) = recalling {
        own.leave(number);
    }
}

/// The next errand of what is recalled.
pub(crate) fn go_on(
    recalling: &mut Option<OwnRecalls>,
    alloc: Global,
) -> Result<Option<Errand>, AllocError>
    ensures ok { IfOk result (λ e. GoesOnFrom recalling.old recalling.new e) }
    ensures err { OnErr result (recalling.new ≡ recalling.old) }
{
    match recalling {
        Some(own) => own.next(alloc),
        None => Ok(None),
    }
}
