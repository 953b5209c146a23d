//! A status, read from its text.

ghost use Rattle.std.specs.Prelude.{◌≡◌, IfOk};
ghost use Rattle.plant_status.specs.Texts.{status_text};

use crate::draft::drafted;
use crate::status::Status;
use crate::writing::text_of;
use std::alloc::{AllocError, Global};

/// The newest form of the lines of a status that is read.
const NEWEST: u32 = 2;

/// Why a text is read as no status.
#[derive(Clone, Copy)]
pub enum Unread {
    OutOfMemory,
    /// Its last line says that it is of a later form.
    Later,
    /// It is the text of no status.
    NoStatus,
}

impl From<AllocError> for Unread {
    fn from(_: AllocError) -> Unread {
        Unread::OutOfMemory
    }
}

/// The form of which the last line of a text says that it is, if it says so. Another line stands before that.
fn form_of(text: &str) -> Option<u32> {
    let (_, last) = text.strip_suffix('\n')?.rsplit_once('\n')?;
    let (_, form) = last.rsplit_once(", form ")?;
    form.parse::<u32>().ok()
}

/// The status that has this text. It is drafted from the numbers of the text, and its own text is compared: so nothing is read that was not written so.
///
/// # Errors
///
/// It is the text of no status, it is of a later form, or out of memory.
pub fn read(alloc: Global, text: &str) -> Result<Status, Unread>
    ensures { IfOk result (λ s. text.now ≡ status_text s) }
{
    if form_of(text).unwrap_or(1) > NEWEST {
        return Err(Unread::Later);
    }
    let status = drafted(alloc, text)?;
    let again = text_of(alloc, &status)?;
    if again.as_str() == text {
        Ok(status)
    } else {
        Err(Unread::NoStatus)
    }
}
