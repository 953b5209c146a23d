//! The configuration of a file, and the fault of one that is none.

ghost use Rattle.std.specs.Prelude.{IfOk, IfSome};
ghost use Rattle.toml.specs.Parse.{parse_document};
ghost use Rattle.command_ends.specs.Giving.{Gives};
ghost use Rattle.configuration.specs.Reading.{IsReadFrom};
ghost use Rattle.configuration.specs.Stations.{IsCircuit};

use crate::config::Config;
use crate::fault::ConfigFault;
use crate::hosts::{Hosts, find_hosts};
use command_ends::Fault;
use inputs::{read_text, text_of};
use std::alloc::Global;
use std::io::Read;

/// The configuration of a text. What isn't UTF-8 is not TOML.
fn config_of<H: Hosts>(alloc: Global, hosts: &H, bytes: &[u8]) -> Result<Config, ConfigFault>
    ensures { IfOk result (IsReadFrom (H.finds hosts.now) (parse_document bytes.now)) }
{
    let Some(text) = text_of(bytes) else {
        return Err(ConfigFault::NotToml);
    };
    let found = find_hosts(alloc, hosts, text)?;
    Config::read(alloc, text, &found)
}

/// A file that a configuration is to be read from.
#[derive(Drop)]
pub struct ConfigInput<'a, R: Read + Drop> {
    pub path: &'a str,
    pub input: R,
}

/// Reads a configuration from the input at a path, and looks the hosts up that it names.
///
/// At `Ok` the stations stand in order of their members, from 1, and the own member is one of them. The first fault is
/// answered: the input can't be read or is too long, or one of [`Config::read`]; it ends a command as a fault of an input or
/// as want of memory.
pub fn read_config<'a, R: Read + Drop, H: Hosts>(
    alloc: Global,
    hosts: &H,
    file: ConfigInput<'a, R>,
) -> Result<Config, Fault<'a>>
    ensures read { Gives result (λ c. IfSome (R.remaining file.entry.input) (λ text. IsReadFrom (H.finds hosts.now) (parse_document text) c)) }
    ensures circuit { IfOk result (λ c. IsCircuit c.member c.stations.items) }
{
    let ConfigInput { path, mut input } = file;
    let text = read_text(alloc, &mut input, path)?;
    Ok(config_of(alloc, hosts, &text)?)
}
