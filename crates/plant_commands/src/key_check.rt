//! The file of keys that a configuration names.

use crate::files::put_fault;
use circuit_keys::{KeyFault, read_key_file};
use command_ends::Fault;
use configuration::Config;
use std::io::Write;

/// Writes what is wrong with the file of keys, where the configuration names one; whether nothing is.
pub(crate) fn put_key<'a, W: Write>(
    rt: &HostRuntime,
    config: &Config,
    out: &mut W,
) -> Result<bool, Fault<'a>> {
    let Some(path) = &config.key else {
        return Ok(true);
    };
    match read_key_file(rt, path) {
        Ok(_) => Ok(true),
        // Want of memory is none of its faults.
        Err(refused) if refused.fault == KeyFault::OutOfMemory => Err(Fault::OutOfMemory),
        Err(refused) => {
            put_fault(Fault::from(refused), out)?;
            Ok(false)
        }
    }
}
