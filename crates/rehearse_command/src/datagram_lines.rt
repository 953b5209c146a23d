//! The lines of datagrams.

ghost use Rattle.std.specs.Prelude.{◌≡◌, ◌+◌, ◌≤◌, Some, OnOk, length, string_bytes};
ghost use Rattle.streams.specs.Writing.{Writes};
ghost use Rattle.rehearse_command.specs.Datagrams.{datagram_line, datagrams_text, kind_word, packet_line, route_text};

use packets::{BodyRef, PacketRef, decode};
use release_texts::put_line;
use station::Datagram;
use std::alloc::AllocError;
use std::fmt;
use std::io::Write;
use streams::PutFault;
use tape_frames::Version;

/// The word for a packet's kind.
fn kind_word(packet: &PacketRef<'_>) -> &'static str
    ensures { result.now ≡ kind_word packet.now.body }
{
    match packet.body() {
        BodyRef::Prepare => "prepare",
        BodyRef::Promise { .. } => "promise",
        BodyRef::Accept { .. } => "accept",
        BodyRef::Accepted { .. } => "accepted",
        BodyRef::Nack { .. } => "nack",
    }
}

/// From whom to whom, as `1>2`.
#[derive(Clone, Copy)]
struct RouteText {
    from: u8,
    to: u8,
}

impl fmt::Display for RouteText {
    ghost output = { λ r. Some (route_text r.from r.to) };

    fn fmt<W: fmt::Write>(&self, f: &mut fmt::Formatter<W>) -> fmt::Result {
        write!(f, "{}>{}", self.from, self.to)
    }
}

/// Makes `line` the line of the `k`-th packet ever sent.
fn packet_line(line: &mut String, k: usize, packet: &PacketRef<'_>) -> Result<(), AllocError>
    ensures { OnOk result (string_bytes line.new ≡ packet_line k packet.now) }
{
    let kind = kind_word(packet);
    let route = RouteText {
        from: packet.from().get(),
        to: packet.to().get(),
    };
    let number = packet.number().get();
    let ballot = packet.ballot();
    line.clear();
    write!(line, " #{k} {kind} {route} {number} {ballot}\n")
}

/// Writes the `k`-th datagram ever sent. Each spells a packet, for a station sent it, in its own version.
fn put_datagram<W: Write>(
    line: &mut String,
    k: usize,
    datagram: &Datagram,
    out: &mut W,
) -> Result<(), PutFault>
    ensures { Writes result (W.contents out.old) (W.contents out.new) (datagram_line k datagram.now) }
{
    let Ok(packet) = decode(datagram.bytes(), Version::Two) else {
        return Ok(());
    };
    packet_line(line, k, &packet)?;
    put_line(line, out)
}

/// Writes the datagrams that a step sent, before which so many were sent.
pub fn put_datagrams<W: Write>(
    line: &mut String,
    before: usize,
    sent: &[Datagram],
    out: &mut W,
) -> Result<(), PutFault>
    requires { before + length sent.now ≤ usize.MAX }
    ensures { Writes result (W.contents out.old) (W.contents out.new) (datagrams_text before sent.now) }
{
    for (index, datagram) in sent.iter().enumerate() {
        put_datagram(line, before + index + 1, datagram, out)?;
    }
    Ok(())
}
