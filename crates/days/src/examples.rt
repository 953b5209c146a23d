//! A day of two members, played to its first release: there is one. They store their steps in groups.

ghost use Rattle.std.specs.Prelude.{IfSome};
ghost use Rattle.protocol.specs.Entries.{Taped};
ghost use Rattle.days.specs.Examples.{DayOfTwo, OfferedBoth, Received, TookIn};

use line_check::Setting;
use rows_saved::{Grouped, MemoryRows, Rows, Settles};
use station::{Answer, Membership, Release, Station};
use std::alloc::Global;
use tape_frames::Tape;

/// Offers a tape for the numbers 12 and 13, and stores by one call what was saved for both. Only then may the answer for 12 go out.
fn offer_both<R: Settles>(station: &mut Station<R>, tape: &Tape, now: u64) -> Option<Answer>
    ensures { IfSome result (OfferedBoth R.Rows R.Settles.is_settled (Taped tape.now) now station.old station.new) }
{
    let Ok(answer) = station.offer(12, tape, now) else {
        return None;
    };
    let Ok(_) = station.offer(13, tape, now) else {
        return None;
    };
    let Ok(()) = station.settle() else {
        return None;
    };
    Some(answer)
}

/// Calls the station with the first datagram that an answer hands out, where it is for this member.
fn receive_first<R: Rows>(
    station: &mut Station<R>,
    me: u8,
    sent: &Answer,
    now: u64,
) -> Option<Answer>
    ensures { IfSome result (Received R.Rows me sent.now now station.old station.new) }
{
    if sent.out.len() < 1 {
        return None;
    }
    let datagram = &sent.out[0];
    if datagram.to().get() != me {
        return None;
    }
    match station.receive(datagram.bytes(), now) {
        Ok(answer) => Some(answer),
        Err(_) => None,
    }
}

/// Takes that datagram in, and stores what was saved for it. Only then may the answer go out.
fn take_in<R: Settles>(station: &mut Station<R>, me: u8, sent: &Answer, now: u64) -> Option<Answer>
    ensures { IfSome result (TookIn R.Rows R.Settles.is_settled me sent.now now station.old station.new) }
{
    let answer = receive_first(station, me, sent, now)?;
    match station.settle() {
        Ok(()) => Some(answer),
        Err(_) => None,
    }
}

/// Plays two members of circuit 7, over rows in memory that are stored in groups, to the first release: the first is offered a
/// tape for the numbers 12 and 13, and what they send each other of 12 comes. What a member saved is stored before it sends. Between
/// its promise and its vote the second starts again. `None` where there is no memory, or the tape does not set at the first.
pub fn release_of_two(
    alloc: Global,
    first: Setting,
    second: Setting,
    tape: &Tape,
) -> Option<Release>
    ensures { IfSome result (DayOfTwo ⟦<Grouped<MemoryRows> as Rows>⟧ ⟦<Grouped<MemoryRows> as Settles>⟧.is_settled) }
{
    let rows = Grouped::new(alloc, MemoryRows::new(alloc));
    let here = Membership {
        circuit: 7,
        me: 1,
        members: 2,
    };
    let Ok(mut one) = Station::new(alloc, here, first, rows) else {
        return None;
    };
    let rows = Grouped::new(alloc, MemoryRows::new(alloc));
    let there = Membership { me: 2, ..here };
    let Ok(mut two) = Station::new(alloc, there, second, rows) else {
        return None;
    };
    let prepare = offer_both(&mut one, tape, 0)?;
    let promise = take_in(&mut two, 2, &prepare, 0)?;
    two.restart();
    let accept = take_in(&mut one, 1, &promise, 0)?;
    let accepted = take_in(&mut two, 2, &accept, 0)?;
    let last = take_in(&mut one, 1, &accepted, 0)?;
    last.release
}
