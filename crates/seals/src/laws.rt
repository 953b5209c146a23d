//! Laws over the definitions. The functions do nothing: their contracts are the laws. A call in them brings in how long a tag is.

ghost use Rattle.seals.specs.Laws.{OpensWhatIsSealed, OnePiece, DatagramsAreShort, FewDatagrams, TagsAreApart};

use hmac::laws::lengths;

/// What is sealed is opened by its addressee.
pub fn opens_what_is_sealed()
    ensures { OpensWhatIsSealed }
{
    lengths();
}

/// No bytes are two parts.
pub fn one_piece()
    ensures { OnePiece }
{
    lengths();
}

/// A datagram has at most 1,232 bytes, and a packet goes as 11 at most.
pub fn short_and_few()
    ensures short { DatagramsAreShort }
    ensures few { FewDatagrams }
{
    lengths();
}

/// The tag of a datagram is never that of a packet.
pub fn tags_are_apart()
    ensures { TagsAreApart }
{}
