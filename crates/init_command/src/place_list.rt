//! The places of the stations of a circuit, as a line lists them.

ghost use Rattle.std.specs.Prelude.{◌≤◌, ◌<◌, IfSome, length};
ghost use Rattle.protocol.specs.Limits.{most_members};
ghost use Rattle.init_command.specs.Ends.{OfLine};

use crate::cause::InitFault;
use crate::place::{StationPlace, place_of};
use ballots::Member;
use std::alloc::Global;

/// The most stations of a circuit.
const MOST: usize = Member::LAST as usize;

/// Which of the earlier places this one is again, counted from 1.
fn earlier(places: &[StationPlace<'_>], place: &StationPlace<'_>) -> Option<usize>
    ensures { IfSome result (λ first. first ≤ length places.now) }
{
    for (before, other) in places.iter().enumerate() {
        if place.is_same(other) {
            return Some(before + 1);
        }
    }
    None
}

/// The place of an entry behind those before it, if there is room for it.
fn next_place<'a>(
    places: &[StationPlace<'a>],
    entry: &'a str,
) -> Result<StationPlace<'a>, InitFault>
    ensures { OfLine result (λ _. length places.now < most_members) }
{
    if places.len() >= MOST {
        return Err(InitFault::TooMany);
    }
    let at = places.len() + 1;
    let Some(place) = place_of(entry) else {
        return Err(InitFault::NoPlace(at));
    };
    if !place.is_of_a_host() {
        return Err(InitFault::NoHost(at));
    }
    match earlier(places, &place) {
        Some(first) => Err(InitFault::Again { at, first }),
        None => Ok(place),
    }
}

/// The places of a list with commas between them, in order of members from 1, as `a:7001,b:7001,10.0.7.3:7001`.
///
/// The first fault refuses it, entry by entry: there are more than a circuit has stations; it is no host with a port; no host may have
/// this address; it is an earlier one again.
pub fn places_of<'a>(alloc: Global, list: &'a str) -> Result<Vec<StationPlace<'a>>, InitFault>
    ensures { OfLine result (λ places. length places.items ≤ most_members) }
{
    let mut places = Vec::new(alloc);
    for entry in list.split(',') {
        let place = next_place(&places, entry)?;
        places.push(place)?;
    }
    Ok(places)
}

/// Tests that a member is one of so many stations.
pub fn check_member(member: Member, stations: usize) -> Result<(), InitFault>
    ensures { OfLine result (λ _. member ≤ stations) }
{
    if usize::from(member.get()) > stations {
        return Err(InitFault::NoMember {
            member: member.get(),
            stations,
        });
    }
    Ok(())
}
