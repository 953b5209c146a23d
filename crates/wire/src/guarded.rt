//! A socket behind a door. Of what passes over a socket of the host nothing is known; what is said here is said of any socket, by what came
//! to it and what it was given.

ghost use Rattle.std.specs.Prelude.{◌≡◌, ◌/◌, ◌^◌, ◌-◌, [], ◌∷◌, min, IfOk};
ghost use Rattle.std.specs.Duration.{as_nanos};
ghost use Rattle.wire.specs.Doors.{IsKept};
ghost use Rattle.wire.specs.Guarded.{IsFreshBehind, Keeps, Leaves, Receives, TellsLost, TellsStrangers, passed_of};
ghost use Rattle.wire.specs.Passing.{Passes, sent, told};

use crate::address::Address;
use crate::buffer::ask_for_room;
use crate::door::{Brought, Door};
use crate::socket::{Socket, socket_address};
use crate::strangers::{PAUSE, Strangers, Untold};
use crate::wire::{Arrival, Wire};
use ballots::Member;
use pace::{MOST_AFTER_A_SEND, MOST_RECEIVES, Waiting};
use std::alloc::Global;
use std::io;
use std::io::ErrorKind;
use std::net::{Net, SocketAddr, UdpSocket};
use std::rt::Clock;
use std::time::{Duration, Instant};

/// How long a receive waits at most, in milliseconds.
const LIMIT: u64 = 50;

/// The room for one datagram that is taken from the socket. The longest packet has a byte less, so one that was cut is none.
const ROOM: usize = 12_314;

/// A socket, the door that decides what comes in, what came in and was not received yet, and the clock.
#[derive(Drop)]
pub struct GuardedWire<'a, C: Clock, D: Door, S: Socket> {
    alloc: Global,
    socket: S,
    door: D,
    clock: &'a C,
    start: Instant,
    // The last moment that the clock gave.
    moment: u64,
    // What was not admitted.
    untold: Untold,
    // What came in, and waits to be received.
    waiting: Waiting,
    // The moment before which it is not told what found no place.
    lost_due: u64,
    // The room for the next datagram.
    room: Vec<u8>,
}

/// A duration in whole milliseconds, as many as there are numbers for.
fn moment_of(elapsed: Duration) -> u64
    ensures { result ≡ min (as_nanos elapsed / 1_000_000) (2 ^ 64 - 1) }
{
    u64::try_from(elapsed.as_millis()).unwrap_or(u64::MAX)
}

/// How many members these stations are.
fn count_of(stations: &[Address]) -> u8 {
    u8::try_from(stations.len()).unwrap_or(u8::MAX)
}

impl<'a, C: Clock, D: Door> GuardedWire<'a, C, D, UdpSocket> {
    /// A socket of the host at the own address, behind this door. The clock starts now. Where there is no memory for what waits, it fails
    /// as the socket does.
    pub fn behind<R: Net>(
        net: &R,
        clock: &'a C,
        own: &Address,
        door: D,
    ) -> io::Result<GuardedWire<'a, C, D, UdpSocket>>
        ensures { IfOk result (IsFreshBehind door) }
    {
        let stations = door.stations();
        let alloc = *stations.allocator();
        let waiting = Waiting::new(alloc, count_of(stations))?;
        let room = vec![in alloc; 0u8; ROOM]?;
        let socket = UdpSocket::bind(net, socket_address(own))?;
        socket.set_read_timeout(Some(Duration::from_millis(LIMIT)))?;
        ask_for_room(&socket);
        let start = Instant::now(clock)?;
        Ok(GuardedWire {
            alloc,
            socket,
            door,
            clock,
            start,
            moment: 0,
            untold: Untold::new(),
            waiting,
            lost_due: 0,
            room,
        })
    }

    /// The port that the socket has.
    pub fn port(&self) -> io::Result<u16> {
        Ok(self.socket.local_addr()?.port())
    }
}

/// Lets what a datagram brought wait; one that is not admitted is counted, and one that finds no memory is lost.
fn keep(brought: Brought, sender: SocketAddr, waiting: &mut Waiting, untold: &mut Untold)
    ensures { IsKept brought sender waiting.old untold.old.tallies waiting.new untold.new.tallies }
{
    match brought {
        Brought::Packet(datagram) => {
            let _ = waiting.put(datagram);
        }
        Brought::Part => {}
        Brought::Lost => waiting.lose(),
        Brought::Refused(reason) => untold.add(reason, sender),
    }
}

/// Whether the network stands after what was taken: where nothing came in time, it does.
fn stands(taken: io::Result<()>) -> bool {
    match taken {
        Ok(()) => true,
        Err(error) => matches!(
            error.kind(),
            ErrorKind::WouldBlock | ErrorKind::TimedOut | ErrorKind::Interrupted
        ),
    }
}

impl<'a, C: Clock, D: Door, S: Socket> GuardedWire<'a, C, D, S> {
    /// Takes a datagram from the socket, and lets it wait where it is admitted. It waits for one as the socket does.
    fn take_one(&mut self) -> io::Result<()>
        ensures keeps { Keeps S.came D.brings self.old self.new }
    {
        let (length, sender) = self.socket.receive_from(&mut self.room)?;
        let brought = self.door.admit(self.alloc, sender, &self.room[..length]);
        keep(brought, sender, &mut self.waiting, &mut self.untold);
        Ok(())
    }

    /// Takes what waits at the socket, so many datagrams at most, and waits for nothing.
    fn fetch_some(&mut self, most: usize)
        ensures keeps { Keeps S.came D.brings self.old self.new }
    {
        if self.socket.set_waits(false).is_err() {
            return;
        }
        for _ in 0..most {
            if self.take_one().is_err() {
                break;
            }
        }
        let _ = self.socket.set_waits(true);
    }

    /// Takes what waits at the socket, or waits for a datagram; whether the network stands.
    fn await_one(&mut self) -> bool
        ensures { Leaves S.came D.brings self.old self.new [] }
    {
        self.fetch_some(MOST_RECEIVES);
        !self.waiting.is_empty() || stands(self.take_one())
    }

    /// Takes the datagram whose turn it is, of those that wait in memory.
    fn take_next(&mut self) -> Arrival
        ensures { Receives S.came D.brings self.old self.new result }
    {
        match self.waiting.take() {
            Some(datagram) => Arrival::Datagram(datagram.bytes),
            None => Arrival::Nothing,
        }
    }
}

impl<'a, C: Clock, D: Door, S: Socket> Wire for GuardedWire<'a, C, D, S> {
    ghost passed = { passed_of S.came D.brings };

    fn fetch(&mut self) -> bool
        ensures leaves { Leaves S.came D.brings self.old self.new [] }
    {
        self.fetch_some(MOST_RECEIVES);
        !self.waiting.is_empty()
    }

    fn receive(&mut self) -> Arrival
        ensures receives { Receives S.came D.brings self.old self.new result }
    {
        if !self.await_one() {
            return Arrival::Failed;
        }
        self.take_next()
    }

    /// What came meanwhile is taken from the socket, so that what the others send at once does not fill it.
    fn send(&mut self, to: Member, bytes: &[u8]) -> bool
        ensures sends { D.sends self.old.door (S.given self.old.socket) to bytes.now result }
        ensures leaves { Leaves S.came D.brings self.old self.new (sent to bytes.now ∷ []) }
    {
        let is_sent = self.door.send(&self.socket, to, bytes);
        self.fetch_some(MOST_AFTER_A_SEND);
        is_sent
    }

    /// Where the clock fails, it is the last moment that was told.
    fn now(&mut self) -> u64
        ensures moment { result ≡ self.new.moment }
        ensures rest { self.new ≡ record self.old { moment = self.new.moment } }
        ensures passes { Passes (passed_of S.came D.brings self.old) (passed_of S.came D.brings self.new) (told result ∷ []) }
    {
        if let Ok(elapsed) = self.start.elapsed(self.clock) {
            self.moment = moment_of(elapsed);
        }
        self.moment
    }

    /// Those of each reason are told at most once a second.
    fn strangers(&mut self, now: u64) -> Option<Strangers>
        ensures { TellsStrangers S.came D.brings now self.old self.new result }
    {
        self.untold.tell(now)
    }

    /// They are told at most once a second.
    fn lost(&mut self, now: u64) -> Option<u64>
        ensures { TellsLost S.came D.brings now self.old self.new result }
    {
        if now < self.lost_due {
            return None;
        }
        let lost = self.waiting.tell_lost();
        if lost == 0 {
            return None;
        }
        self.lost_due = now.saturating_add(PAUSE);
        Some(lost)
    }
}
