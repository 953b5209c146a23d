//! The command `check-config`.

use crate::addresses::put_addresses;
use crate::files::{put_fault, put_rows, put_tables};
use crate::folders_check::put_folders;
use crate::key_check::put_key;
use command_ends::{End, Fault, found_with};
use configuration::{Config, ConfigFault, Resolver, faults_of, find_hosts};
use inputs::{read_text, text_of};
use std::alloc::Global;
use std::io::Write;
use streams::{InputFile, hand_on};

/// Writes all that is found about the configuration at a path; whether nothing of it is a fault.
fn put_all<'a, W: Write>(
    rt: &HostRuntime,
    path: &str,
    config: &Config,
    out: &mut W,
) -> Result<bool, Fault<'a>> {
    let addresses = put_addresses(rt, config, out)?;
    let key = put_key(rt, config, out)?;
    let tables = put_tables(rt, config, out)?;
    let folders = put_folders(rt, path, config, out)?;
    put_rows(rt, config, out)?;
    hand_on(out)?;
    Ok(addresses && key && tables && folders)
}

/// Writes each fault of a configuration's text, where this was found for the hosts that it names; whether there is none.
fn put_faults<'a, W: Write>(
    alloc: Global,
    text: &str,
    found: &[Option<[u8; 4]>],
    out: &mut W,
) -> Result<bool, Fault<'a>> {
    let faults = faults_of(alloc, text, found)?;
    for fault in faults.iter() {
        put_fault(Fault::from(*fault), out)?;
    }
    hand_on(out)?;
    Ok(faults.is_empty())
}

/// Writes what is found about the configuration at a path; whether nothing of it is a fault. Where it has faults itself, these alone.
fn checked<'a, W: Write>(rt: &HostRuntime, path: &'a str, out: &mut W) -> Result<bool, Fault<'a>> {
    let bytes = read_text(rt.alloc(), &mut InputFile::at(rt, path), path)?;
    let text = text_of(&bytes).ok_or(ConfigFault::NotToml)?;
    let found = find_hosts(rt.alloc(), &Resolver { net: rt }, text)?;
    if !put_faults(rt.alloc(), text, &found, out)? {
        return Ok(false);
    }
    let config = Config::read(rt.alloc(), text, &found)?;
    put_all(rt, path, &config, out)
}

/// Tells what is found about the configuration at a path, without touching anything. Where it has faults itself, these: of each key, the
/// first of the folders and the first of the stations, whose hosts are looked up. Else on which host each station is, each fault of the
/// file of keys and of the files and folders that it names, and each thing that is odd.
///
/// It ends as a fault of an input where a fault was found.
pub fn check_config<W: Write, E: Write>(
    rt: &HostRuntime,
    config: &str,
    out: &mut W,
    err: &mut E,
) -> End {
    found_with(checked(rt, config, out), err)
}
