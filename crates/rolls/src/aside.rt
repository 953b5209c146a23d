//! What stations say to one another beside packets: recalls and rolls, whose bytes begin alike.

ghost use Rattle.std.specs.Prelude.{◌≡◌};
ghost use Rattle.rolls.specs.Asides.{is_aside_of_rolls, aside_in};

use crate::body::RollKind;
use crate::fault::RollFault;
use crate::reading;
use crate::roll::Roll;
use recalls::{Recall, RecallFault};

/// What stations say to one another beside packets, as it was read: by the fourth byte a roll, which has the kinds 2 to 5, else a
/// recall.
#[derive(Drop)]
pub enum Aside {
    /// Bytes of a recall's kind, or of none.
    Recall(Result<Recall, RecallFault>),
    /// Bytes of a roll's kind.
    Roll(Result<Roll, RollFault>),
}

/// Whether the fourth byte is that of a roll.
fn is_of_rolls(bytes: &[u8]) -> bool
    ensures { result ≡ is_aside_of_rolls bytes.now }
{
    bytes.len() > 3 && RollKind::of_byte(bytes[3]).is_some()
}

/// The recall or the roll that the bytes spell, or their first fault. It takes no memory.
#[tactic(auto, unfolding(crate::specs::Asides::aside_in))]
pub fn hear(bytes: &[u8]) -> Aside
    ensures { result ≡ aside_in bytes.now }
{
    if is_of_rolls(bytes) {
        Aside::Roll(reading::decode(bytes))
    } else {
        Aside::Recall(recalls::decode(bytes))
    }
}
