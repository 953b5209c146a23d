//! Where a frame comes in tapes, and how often.

ghost use Rattle.std.specs.Prelude.{◌≡◌, ◌≤◌, ◌==◌, IfOk, count_by, length, take};
ghost use Rattle.reel_commands.specs.Survey.{places_in, times_in};

use crate::surveying::Surveyed;
use std::alloc::{AllocError, Global};

/// The places at which a frame stands in a tape.
#[tactic(auto, unfolding(crate::specs::Survey::places_in))]
pub(crate) fn places_in(alloc: Global, frame: u8, tape: &[u8]) -> Result<Vec<usize>, AllocError>
    ensures { IfOk result (λ places. places.items ≡ places_in frame tape.now) }
{
    let mut places = Vec::new(alloc);
    for (at, found) in tape.iter().enumerate() {
        if *found == frame {
            places.push(at)?;
        }
    }
    Ok(places)
}

/// The first three of some places.
pub(crate) fn first_three(places: &[usize]) -> &[usize]
    ensures { result.now ≡ take 3 places.now }
{
    match places {
        [_, _, _, ..] => &places[..3],
        _ => places,
    }
}

/// How often a frame comes in a tape.
fn count_in(frame: u8, tape: &[u8]) -> usize
    ensures value { result ≡ count_by (λ f. f == frame) tape.now }
    ensures few { result ≤ length tape.now }
{
    let mut times = 0;
    for found in tape {
        if *found == frame {
            times += 1;
        }
    }
    times
}

/// How often it comes in tapes.
pub(crate) fn times_in(frame: u8, tapes: &[Surveyed]) -> u128
    ensures { result ≡ times_in frame tapes.now }
{
    let mut times: u128 = 0;
    for surveyed in tapes {
        times += count_in(frame, surveyed.tape.frames()) as u128;
    }
    times
}
