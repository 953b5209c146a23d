//! The files among the offers.

ghost use Rattle.std.specs.Prelude.{◌≡◌};
ghost use Rattle.offers.specs.Looks.{is_same_stamp};

use crate::stage::Stage;
use folders::{FileRequest, Stamp};

/// A file among the offers, as a look found it.
#[derive(Clone, Copy)]
pub struct FoundOffer {
    /// What its name asks for.
    pub request: FileRequest,
    /// What tells it from what it was and will be.
    pub stamp: Stamp,
}

/// A file among the offers. Times are in milliseconds.
#[derive(Drop)]
pub struct Offer {
    /// What its name asks for.
    pub request: FileRequest,
    /// As it was found last.
    pub stamp: Stamp,
    /// The first look of those that found it so, one after the other up to the last.
    pub since: u64,
    /// What is known of it.
    pub stage: Stage,
}

/// Whether two stamps are one.
pub(crate) fn is_same_stamp(before: Stamp, stamp: Stamp) -> bool
    ensures { result ≡ is_same_stamp before stamp }
{
    before.file.device == stamp.file.device
        && before.file.inode == stamp.file.inode
        && before.length == stamp.length
        && before.changed.0 == stamp.changed.0
        && before.changed.1 == stamp.changed.1
        && before.touched.0 == stamp.touched.0
        && before.touched.1 == stamp.touched.1
}
