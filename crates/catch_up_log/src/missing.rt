//! What may be missing here.

ghost use Rattle.catch_up_log.specs.Missing.{TellsMissing};

use crate::line::CatchUpLine;
use crate::ranges::text_of;
use crate::writing::tell_line;
use gone_out::Numbers;
use plant_log::tell_no_memory;
use std::alloc::Global;
use std::io::Write;

/// Tells, where some are missing, how many numbers may be missing here from before what went out was kept, and which, as the searches that
/// an editor may lay for them: 20 ranges at most, and then `, ..`.
pub fn tell_missing<E: Write>(alloc: Global, missing: &Numbers, err: &mut E)
    ensures { TellsMissing missing.now (E.contents err.old) (E.contents err.new) }
{
    if missing.is_empty() {
        return;
    }
    match text_of(alloc, missing, ".seek") {
        Ok(text) => {
            let (count, names) = (missing.len(), text.as_str());
            tell_line(alloc, &CatchUpLine::Missing { count, names }, err);
        }
        Err(_) => tell_no_memory(err),
    }
}
