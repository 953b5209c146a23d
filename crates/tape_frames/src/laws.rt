//! Laws over packings. The functions do nothing: their contracts are the laws.

ghost use Rattle.std.specs.Prelude.{[], ◌∷◌};
ghost use Rattle.tape_frames.specs.Packing.{OnePacking, OneUnpacking, PackedLength, HasPacking, PackingIsGiven, UnpackingUndoes, TapesArePacked, PackedAreTapes, OnePacked, Packs};

/// Frames have a packing, only one, and of a known length.
pub fn packing()
    ensures some { HasPacking }
    ensures given { PackingIsGiven }
    ensures one { OnePacking }
    ensures lengths { PackedLength }
{}

/// Unpacking undoes packing, and nothing else does.
pub fn unpacking()
    ensures undoes { UnpackingUndoes }
    ensures one { OneUnpacking }
{}

/// A packed tape is known by its length and its pad bits alone: it is what a tape is packed to, and nothing else is.
pub fn packed()
    ensures tapes { TapesArePacked }
    ensures are_tapes { PackedAreTapes }
{}

/// Two packed tapes of the same frames are the same bytes.
pub fn one_packed()
    ensures { OnePacked }
{}

/// Seven frames packed: `01 02 03 01 03 02 04` are `04 20 c1 0c 21 00`.
pub fn seven_packed()
    ensures { Packs (1 ∷ 2 ∷ 3 ∷ 1 ∷ 3 ∷ 2 ∷ 4 ∷ []) (4 ∷ 32 ∷ 193 ∷ 12 ∷ 33 ∷ 0 ∷ []) }
{}
