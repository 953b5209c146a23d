//! The order of the files among the offers.

ghost use Rattle.std.specs.Prelude.{◌≡◌, ◌≤◌};
ghost use Rattle.offers.specs.Order.{kind_rank, rank, is_search};

use folders::{FileRequest, OfferKind};

/// The place of a kind among those of one number.
fn kind_rank(kind: OfferKind) -> u32
    ensures rank { result ≡ kind_rank kind }
    ensures within { result ≤ 3 }
{
    match kind {
        OfferKind::Tape => 0,
        OfferKind::Text => 1,
        OfferKind::Withdraw => 2,
        OfferKind::Seek => 3,
    }
}

/// Whether a file of a kind is a search. Each other file offers an entry.
pub(crate) fn is_search(kind: OfferKind) -> bool
    ensures { result ≡ is_search kind }
{
    match kind {
        OfferKind::Tape | OfferKind::Text | OfferKind::Withdraw => false,
        OfferKind::Seek => true,
    }
}

/// The place of a file among all files that there can be: in order of numbers, and of one number the tape, the text, the withdrawal, the
/// search. What is found is to be put in this order.
pub fn rank(request: FileRequest) -> u32
    ensures rank { result ≡ rank request }
    ensures within { result ≤ 3_999_999 }
{
    4 * request.number.get() + kind_rank(request.kind)
}
