//! The addresses of a circuit, as they are seen from this host.

use crate::{HostPlace, Oddity, Reach, is_even, oddity_of, place_of, reach_of};
use configuration::Config;
use std::io;
use std::io::Write;
use std::net::{IpAddr, Ipv4Addr, SocketAddr, UdpSocket};
use streams::CannotWrite;
use wire::Address;

/// Whether an address is one of this host's: a socket can be bound there, at whichever port is free.
fn is_here(rt: &HostRuntime, address: &Address) -> bool {
    let [a, b, c, d] = address.ip;
    UdpSocket::bind(
        rt,
        SocketAddr::new(IpAddr::V4(Ipv4Addr::new(a, b, c, d)), 0),
    )
    .is_ok()
}

/// From where an address is reached.
fn reach_at(address: &Address) -> Reach {
    let [first, second, _, _] = address.ip;
    reach_of(first, second)
}

/// Writes where a station is; whether that is no fault.
fn put_place<W: Write>(place: HostPlace, address: &Address, out: &mut W) -> io::Result<bool> {
    let member = address.member.get();
    let [a, b, c, d] = address.ip;
    let port = address.port;
    let (mark, what) = match place {
        HostPlace::Own => ("", "is this one, on this host"),
        HostPlace::Amiss => (
            "fault: ",
            "is this one, and that is no address of this host",
        ),
        HostPlace::Beside => ("", "is on this host too"),
        HostPlace::Away => ("", "is on another host"),
    };
    writeln!(
        out,
        "{mark}station {member} at {a}.{b}.{c}.{d}:{port} {what}"
    )?;
    Ok(place != HostPlace::Amiss)
}

/// Writes what is odd about the address of a station, if anything.
fn put_oddity<W: Write>(first: &Address, address: &Address, out: &mut W) -> io::Result<()> {
    let member = address.member.get();
    match oddity_of(reach_at(first), reach_at(address)) {
        None => Ok(()),
        Some(Oddity::NoHost) => writeln!(out, "odd: station {member} has no host's address"),
        Some(Oddity::Apart { own, first }) => {
            writeln!(
                out,
                "odd: station {member} has {own} address, and station 1 {first} one"
            )
        }
    }
}

/// Writes what is odd about the count of stations, if anything.
fn put_count<W: Write>(stations: usize, out: &mut W) -> io::Result<()> {
    if !is_even(stations) {
        return Ok(());
    }
    let fewer = stations.saturating_sub(1);
    writeln!(
        out,
        "odd: {stations} stations bear no more absences than {fewer}"
    )
}

/// Writes where each station of a circuit is, and what is odd about their addresses and their count; whether nothing of that is a fault.
pub(crate) fn put_addresses<W: Write>(
    rt: &HostRuntime,
    config: &Config,
    out: &mut W,
) -> Result<bool, CannotWrite> {
    let Some(first) = config.stations.first() else {
        return Ok(true);
    };
    let mut is_well = true;
    for address in config.stations.iter() {
        let place = place_of(address.member == config.member, is_here(rt, address));
        is_well = put_place(place, address, out)? && is_well;
        put_oddity(first, address, out)?;
    }
    put_count(config.stations.len(), out)?;
    Ok(is_well)
}
