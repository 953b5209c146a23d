//! Packets that go out, as sealed datagrams.

ghost use Rattle.std.specs.Prelude.{◌≡◌, ◌≤◌, length, true};
ghost use Rattle.seals.specs.Sealing.{most_packet};
ghost use Rattle.sealed_door.specs.Admitting.{TookAll};

use hmac::Key;
use seals::Label;
use wire::{Address, Socket};

/// Sends each datagram of a packet with this label to an address; each is written to `out`. Whether the socket took them all; where there is
/// no memory for one, it and those behind it are not sent.
pub(crate) fn send_parts<S: Socket>(
    socket: &S,
    to: &Address,
    sealing: (&Key, &Label, &[u8]),
    out: &mut Vec<u8>,
) -> bool
    requires length { length sealing.2.now ≡ sealing.1.now.length }
    requires most { length sealing.2.now ≤ most_packet }
    ensures { result ≡ true → TookAll (S.given socket.now) to.now sealing.entry.0.now sealing.entry.1.now sealing.entry.2.now }
{
    let (key, label, packet) = sealing;
    let mut all = true;
    for index in 0..label.count() {
        if label.seal(key, index, packet, out).is_err() {
            return false;
        }
        all = socket.send(to, out) && all;
    }
    all
}
