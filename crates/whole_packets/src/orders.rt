//! What a packet's datagrams give, in whatever order they come.

ghost use Rattle.std.specs.Prelude.{IfOk, option_map};
ghost use Rattle.std.specs.List.{All};
ghost use Rattle.seals.specs.Opening.{IsPart};
ghost use Rattle.whole_packets.specs.Orders.{GivesWhatWasSealed};

use seals::{Gathering, Keys, Piece};
use std::alloc::{AllocError, Global};

/// The packet that pieces give, taken in one after the other, up to the first that is whole.
pub fn gather_all(
    alloc: Global,
    keys: &Keys,
    pieces: &[Piece<'_>],
) -> Result<Option<Vec<u8>>, AllocError>
    requires { All (λ p. IsPart p.label p.index p.part.now) pieces.now }
    // Pieces of one packet give it, in whatever order they come and however often, once each part is among them.
    ensures { IfOk result (λ o. GivesWhatWasSealed keys.now pieces.now (option_map (λ v. v.items) o)) }
{
    let mut gathering = Gathering::new(alloc);
    for piece in pieces {
        let taken = gathering.push(alloc, keys, piece)?;
        if let Some(packet) = taken {
            return Ok(Some(packet));
        }
    }
    Ok(None)
}
