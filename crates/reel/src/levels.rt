//! Where a reader has the levels of a frame.

ghost use Rattle.std.specs.Prelude.{◌≡◌, ◌<◌, Some, length, IfOk, IfErr, IfSome};
ghost use Rattle.reel.specs.Levels.{AreNamed, Reads, is_hole, weight_if, frame_of, mask_bits, bit_named};
ghost use Rattle.reel.specs.declared.levels.LevelsFault.TheVariants.{BadMask};

use crate::bits::{ALL, Bit};
use std::alloc::{AllocError, Global};

/// The bit of a byte in which a reader has each level, and which way round it has the holes.
#[derive(Clone, Copy)]
pub struct Levels {
    pub level0: Bit,
    pub level1: Bit,
    pub level2: Bit,
    pub level3: Bit,
    pub level4: Bit,
    pub level5: Bit,
    /// Whether a clear bit is a hole.
    pub inverted: bool,
}

/// Why words name no levels.
#[derive(Clone, Copy, PartialEq, Eq)]
pub enum LevelsFault {
    /// The mask has not six bits.
    BadMask,
    /// The word does not name each level once.
    BadLevels,
    OutOfMemory,
}

/// The bits that hold levels by a mask, the highest first.
fn mask_bits(alloc: Global, mask: u8) -> Result<Vec<Bit>, AllocError>
    ensures { IfOk result (λ v. v.items ≡ mask_bits mask) }
{
    ALL.iter()
        .copied()
        .filter(|bit| bit.is_set(mask))
        .collect(alloc)
}

/// The bit that holds a level, where the word names it.
fn bit_named(level: u8, word: &[u8], bits: &[Bit]) -> Option<Bit>
    requires { level < 6 }
    ensures { result ≡ bit_named level word.now bits.now }
{
    match word {
        [] => None,
        [digit, word @ ..] => match bits {
            [] => None,
            [bit, _rest @ ..] if *digit == 48 + level => Some(*bit),
            [_bit, bits @ ..] => bit_named(level, word, bits),
        },
    }
}

/// The levels that a word of digits names in these bits.
fn levels_in(word: &[u8], bits: &[Bit], inverted: bool) -> Option<Levels>
    ensures level0 { IfSome result (λ levels. bit_named 0 word.now bits.now ≡ Some levels.level0) }
    ensures level1 { IfSome result (λ levels. bit_named 1 word.now bits.now ≡ Some levels.level1) }
    ensures level2 { IfSome result (λ levels. bit_named 2 word.now bits.now ≡ Some levels.level2) }
    ensures level3 { IfSome result (λ levels. bit_named 3 word.now bits.now ≡ Some levels.level3) }
    ensures level4 { IfSome result (λ levels. bit_named 4 word.now bits.now ≡ Some levels.level4) }
    ensures level5 { IfSome result (λ levels. bit_named 5 word.now bits.now ≡ Some levels.level5) }
    ensures way { IfSome result (λ levels. levels.inverted ≡ inverted) }
{
    Some(Levels {
        level0: bit_named(0, word, bits)?,
        level1: bit_named(1, word, bits)?,
        level2: bit_named(2, word, bits)?,
        level3: bit_named(3, word, bits)?,
        level4: bit_named(4, word, bits)?,
        level5: bit_named(5, word, bits)?,
        inverted,
    })
}

/// The levels that a word of six digits names, from the highest bit of the mask on: `543210` has level 5 in the highest.
///
/// `BadMask` comes where the mask has not six bits, and then `BadLevels` where the word does not name each level once.
pub fn levels_of(
    alloc: Global,
    word: &[u8],
    mask: u8,
    inverted: bool,
) -> Result<Levels, LevelsFault>
    ensures named { IfOk result (AreNamed word.now mask inverted) }
    ensures mask { IfErr result (λ fault. fault ≡ BadMask → ¬ (length (mask_bits mask) ≡ 6)) }
{
    let Ok(bits) = mask_bits(alloc, mask) else {
        return Err(LevelsFault::OutOfMemory);
    };
    if bits.len() != 6 {
        return Err(LevelsFault::BadMask);
    }
    if word.len() != 6 {
        return Err(LevelsFault::BadLevels);
    }
    match levels_in(word, &bits, inverted) {
        Some(levels) => Ok(levels),
        None => Err(LevelsFault::BadLevels),
    }
}

/// What a hole counts for in a frame.
fn weight_if(hole: bool, weight: u8) -> u8
    ensures { result ≡ weight_if hole weight }
{
    if hole { weight } else { 0 }
}

impl Levels {
    /// Whether there is a hole at a bit of a byte.
    fn has(&self, bit: Bit, byte: u8) -> bool
        ensures { result ≡ is_hole self.now.inverted bit byte }
    {
        bit.is_hole(self.inverted, byte)
    }

    /// The frame that is read of a byte: each level is punched just where there is a hole at its bit.
    #[tactic(auto, using(crate::proofs::Holes::reads), unfolding(crate::specs::Levels::frame_of))]
    pub fn frame(&self, byte: u8) -> u8
        ensures value { result ≡ frame_of self.now byte }
        ensures reads { Reads self.now byte result }
    {
        weight_if(self.has(self.level0, byte), 1)
            + weight_if(self.has(self.level1, byte), 2)
            + weight_if(self.has(self.level2, byte), 4)
            + weight_if(self.has(self.level3, byte), 8)
            + weight_if(self.has(self.level4, byte), 16)
            + weight_if(self.has(self.level5, byte), 32)
    }
}
