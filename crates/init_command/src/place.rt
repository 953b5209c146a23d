//! Where a member's station listens, as a word names it.

ghost use Rattle.std.specs.Prelude.{◌≡◌, ◌<◌, None, IfSome};
ghost use Rattle.std.specs.List.{list_all};
ghost use Rattle.init_command.specs.Places.{is_name_byte, has_letter, is_name, IsHostOf, IsNoHost, is_first_of_a_host, is_of_a_host};

use configuration::ip_of;

/// The most digits of a port.
const MOST_DIGITS: usize = 5;

/// The most bytes of a host's name (RFC 1035).
const MOST_NAME: usize = 253;

/// The host of a station.
#[derive(Clone, Copy)]
pub enum StationHost<'a> {
    /// The four parts of its IP address.
    Ip([u8; 4]),
    /// Its name, which is looked up at each start.
    Name(&'a str),
}

/// Where a station listens.
#[derive(Clone, Copy)]
pub struct StationPlace<'a> {
    pub host: StationHost<'a>,
    /// Its UDP port, 1 to 65,535.
    pub port: u16,
}

/// Whether a byte may stand in a host's name: each of them stands for itself in TOML.
fn is_name_byte(byte: u8) -> bool
    ensures { result ≡ is_name_byte byte }
{
    byte.is_ascii_alphanumeric() || byte == b'-' || byte == b'.' || byte == b'_'
}

/// Whether there is a letter in a word: one of digits and dots alone is an address with a mistake.
fn has_letter(word: &[u8]) -> bool
    ensures { result ≡ has_letter word.now }
{
    word.iter().any(|byte| byte.is_ascii_alphabetic())
}

/// Whether each byte may stand in a host's name.
fn are_name_bytes(word: &[u8]) -> bool
    ensures { result ≡ list_all is_name_byte word.now }
{
    word.iter().all(|byte| is_name_byte(*byte))
}

/// Whether a word is a host's name.
fn is_name(word: &str) -> bool
    ensures { result ≡ is_name word.now }
{
    word.len() <= MOST_NAME && are_name_bytes(word.as_bytes()) && has_letter(word.as_bytes())
}

/// The host of a word: four numbers are an IP address, and anything else that can be a name is one.
fn host_of(word: &str) -> Option<StationHost<'_>>
    ensures some { IfSome result (λ host. IsHostOf word.now host) }
    ensures none { result ≡ None → IsNoHost word.now }
{
    match ip_of(word) {
        Some(ip) => Some(StationHost::Ip(ip)),
        None if is_name(word) => Some(StationHost::Name(word)),
        None => None,
    }
}

/// Whether each byte is a decimal digit.
fn all_digits(word: &[u8]) -> bool {
    word.iter().all(|byte| byte.is_ascii_digit())
}

/// The port of a word: one to five decimal digits, 1 to 65,535.
fn port_of(word: &str) -> Option<u16>
    ensures { IfSome result (λ port. 0 < port) }
{
    if word.len() > MOST_DIGITS || !all_digits(word.as_bytes()) {
        return None;
    }
    match word.parse::<u16>() {
        Ok(port) if port > 0 => Some(port),
        _ => None,
    }
}

/// The place of an entry, as `desk-2.example:7001` or `10.0.7.2:7001`: its host, a colon and its port.
pub fn place_of(entry: &str) -> Option<StationPlace<'_>>
    ensures { IfSome result (λ place. 0 < place.port) }
{
    let (host, port) = entry.split_once(':')?;
    Some(StationPlace {
        host: host_of(host)?,
        port: port_of(port)?,
    })
}

/// Whether a host may have this first number of its address.
fn is_first_of_a_host(first: u8) -> bool
    ensures { result ≡ is_first_of_a_host first }
{
    0 < first && first < 224
}

impl<'a> StationPlace<'a> {
    /// Whether a host may have this address as its own: none has one that begins with 0, or with 224 and above. A name is looked up later.
    pub(crate) fn is_of_a_host(&self) -> bool
        ensures { result ≡ is_of_a_host self.now.host }
    {
        match self.host {
            StationHost::Ip(ip) => is_first_of_a_host(ip[0]),
            StationHost::Name(_) => true,
        }
    }

    /// Whether two places are one: the same host, as it is written, and the same port.
    pub(crate) fn is_same(&self, other: &StationPlace<'_>) -> bool {
        if self.port != other.port {
            return false;
        }
        match (self.host, other.host) {
            (StationHost::Ip(own), StationHost::Ip(ip)) => own == ip,
            (StationHost::Name(own), StationHost::Name(name)) => own.eq_ignore_ascii_case(name),
            (StationHost::Ip(_), StationHost::Name(_))
            | (StationHost::Name(_), StationHost::Ip(_)) => false,
        }
    }
}
