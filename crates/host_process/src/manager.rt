//! The service manager that started the process, as systemd is, where it wants to be told how that is: it listens at a Unix socket.

ghost use Rattle.std.specs.Prelude.{◌≤◌};

use libc::close;
use libc::net::{_SS_SIZE, AF_UNIX, sendto, socket};
use std::env;

/// The variable that names its socket.
const VARIABLE: &str = "NOTIFY_SOCKET";

/// The most bytes of the name of such a socket.
const MOST_NAME: usize = 107;

/// Where the name begins in an address, behind the family of the address.
const NAME: usize = 2;

/// A socket for datagrams, which no other program gets.
const DATAGRAMS: i32 = 0o2000002;

/// No signal comes where nobody listens, and nothing waits where it is not received.
const AT_ONCE: i32 = 0x4040;

/// The address of a service manager.
#[derive(Clone, Copy)]
pub struct Manager {
    address: [u8; _SS_SIZE],
    /// How many bytes of it are the address.
    len: u32,
    ghost fits: { len ≤ 128 },
}

/// The address of a socket of this name. A name that begins with `@` stands for one that begins with a zero byte.
fn address_of(name: &[u8]) -> Option<Manager> {
    if name.len() > MOST_NAME {
        return None;
    }
    let mut address = [0u8; _SS_SIZE];
    address[..NAME].copy_from_slice(&(AF_UNIX as u16).to_ne_bytes());
    address[NAME..NAME + name.len()].copy_from_slice(name);
    match name.first() {
        Some(b'/') => {}
        Some(b'@') => address[NAME] = 0,
        _ => return None,
    }
    Some(Manager {
        address,
        len: (NAME + name.len()) as u32,
    })
}

impl Manager {
    /// The service manager that the environment names, if it names one.
    pub fn of(rt: &HostRuntime) -> Option<Manager> {
        match env::var(rt, VARIABLE) {
            Ok(name) => address_of(name.as_str().as_bytes()),
            Err(_) => None,
        }
    }

    /// Tells it a text in one datagram. That it is not received is ignored: the station serves all the same.
    pub fn tell(&self, text: &str) {
        let descriptor = unsafe { socket(AF_UNIX, DATAGRAMS, 0) };
        if descriptor < 0 {
            return;
        }
        let _ = unsafe {
            sendto(
                descriptor,
                text.as_bytes(),
                AT_ONCE,
                &self.address,
                self.len,
            )
        };
        let _ = close(descriptor);
    }
}
