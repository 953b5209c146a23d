//! The text of a configuration, with a sentence above each part.

use crate::new_station::{Habits, NewStation};
use crate::place::{StationHost, StationPlace};
use std::alloc::{AllocError, Global};

const FILES: &str = "
# what it reads tapes by, and where it keeps its saved rows: paths from the folder that the program is started in
table = \"codes.toml\"
widths = \"widths.toml\"
rows = \"station.db\"

# where stories are handed over, where it puts what the circuit has agreed on, and where it tells how it stands
[folders]
offers = \"offers\"
releases = \"releases\"
status = \"status.txt\"
";

const SEALED: &str = "
# the key of the circuit: all its stations have the same
[wire]
key = \"circuit.key\"
";

const ADDRESSES: &str = "
# where each member listens: the very address that the others reach it by
";

/// Puts down which station it is.
fn put_own(text: &mut String, station: &NewStation<'_>) -> Result<(), AllocError> {
    let circuit = station.circuit;
    let member = station.member.get();
    write!(
        text,
        "# Station {member} of circuit {circuit}, as circuitd init made it.\n\n# the circuit's number, and which member this station is\n"
    )?;
    write!(text, "circuit = {circuit}\nmember = {member}\n")
}

/// Puts down how its plant works, where that is not as usual.
fn put_habits(text: &mut String, habits: &Habits) -> Result<(), AllocError> {
    if !habits.text {
        text.push_str("text = false\n")?;
    }
    if habits.renamed {
        text.push_str("renamed = true\n")?;
    }
    if !habits.catches_up {
        text.push_str(
            "\n# it asks the others for nothing that it missed\n[catch_up]\noff = true\n",
        )?;
    }
    Ok(())
}

/// Puts down an IP address.
fn put_ip(text: &mut String, ip: [u8; 4]) -> Result<(), AllocError> {
    let [a, b, c, d] = ip;
    write!(text, "ip = \"{a}.{b}.{c}.{d}\"\n")
}

/// Puts down where a member listens.
fn put_place(text: &mut String, member: usize, place: &StationPlace<'_>) -> Result<(), AllocError> {
    let port = place.port;
    write!(text, "[[station]]\nmember = {member}\n")?;
    match place.host {
        StationHost::Ip(ip) => put_ip(text, ip)?,
        StationHost::Name(name) => write!(text, "host = \"{name}\"\n")?,
    }
    write!(text, "port = {port}\n")
}

/// Puts down where each member listens.
fn put_places(text: &mut String, places: &[StationPlace<'_>]) -> Result<(), AllocError> {
    text.push_str(ADDRESSES)?;
    for (before, place) in places.iter().enumerate() {
        if before > 0 {
            text.push_str("\n")?;
        }
        put_place(text, before + 1, place)?;
    }
    Ok(())
}

/// The text of the configuration of a station.
pub(crate) fn text_of(alloc: Global, station: &NewStation<'_>) -> Result<String, AllocError> {
    let mut text = String::new(alloc);
    put_own(&mut text, station)?;
    text.push_str(FILES)?;
    put_habits(&mut text, &station.habits)?;
    if station.sealed {
        text.push_str(SEALED)?;
    }
    put_places(&mut text, station.places)?;
    Ok(text)
}
