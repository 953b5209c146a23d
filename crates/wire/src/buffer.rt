//! The room that a socket of the host has for what comes.

use libc::net::{SO_RCVBUF, SOL_SOCKET, setsockopt};
use std::net::UdpSocket;
use std::os::fd::AsRawFd;

/// How many bytes a socket is asked to keep of what comes and is not received yet. The host gives as many as it allows, and doubles them.
const ROOM: i32 = 4_194_304;

/// Asks the host for room for what comes. A host that refuses leaves the socket with the room that it had.
pub(crate) fn ask_for_room(socket: &UdpSocket) {
    let mut value = [0u8; 16];
    value[..4].copy_from_slice(&ROOM.to_ne_bytes());
    let _ = unsafe { setsockopt(socket.as_raw_fd(), SOL_SOCKET, SO_RCVBUF, &value, 4) };
}
