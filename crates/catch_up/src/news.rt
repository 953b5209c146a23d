//! What a step of the station says of its number.

ghost use Rattle.std.specs.Prelude.{◌≡◌, true, None};
ghost use Rattle.node_core.specs.Turns.{is_quiet, note_value};
ghost use Rattle.catch_up.specs.News.{news_of, packet_news};

use crate::packet::PacketHead;
use healing::NumberNews;
use node_core::Note;

/// The news of a step with this note, if there is any. A step that saved a row has it; what a datagram says is told as it comes.
pub(crate) fn news_of(note: Note) -> Option<NumberNews>
    ensures news { result ≡ news_of note }
    // A turn that finds nothing to do is no news.
    ensures quiet { is_quiet (note_value note) ≡ true → result ≡ None }
{
    match note {
        Note::Began { .. } | Note::Promised { .. } => Some(NumberNews::Saved { votes: false }),
        Note::Proposed { .. } | Note::Voted { .. } => Some(NumberNews::Saved { votes: true }),
        Note::Nothing { .. } => Some(NumberNews::Nothing),
        Note::GaveUp { .. } => Some(NumberNews::Closed),
        Note::Idle
        | Note::Silent
        | Note::Nacked { .. }
        | Note::VotedAgain { .. }
        | Note::Stale
        | Note::Overtaken { .. }
        | Note::Repeated
        | Note::Counted { .. }
        | Note::Denied { .. }
        | Note::Settled
        | Note::Heard { .. }
        | Note::Recalled { .. }
        | Note::Blank => None,
    }
}

/// The news that a packet is.
pub(crate) fn news_of_packet(packet: PacketHead) -> NumberNews
    ensures { result ≡ packet_news packet }
{
    if packet.is_vote {
        NumberNews::Voted {
            member: packet.sender,
        }
    } else {
        NumberNews::Came
    }
}
