//! The files that a configuration names.

use crate::{elevate_frame, fitting_frame};
use code_table::CodeTable;
use command_ends::Fault;
use configuration::Config;
use inputs::{read_table, read_widths};
use std::fs;
use std::io::{ErrorKind, Write};
use streams::{CannotWrite, InputFile};
use widths::Widths;

/// Writes the line of a fault that is found.
pub(crate) fn put_fault<W: Write>(fault: Fault<'_>, out: &mut W) -> Result<(), CannotWrite> {
    writeln!(out, "fault: {fault}")?;
    Ok(())
}

/// What a file was read as, or the fault that is told of it. Want of memory is none of the file's.
fn read_or_tell<'a, T: Drop, W: Write>(
    read: Result<T, Fault<'_>>,
    out: &mut W,
) -> Result<Option<T>, Fault<'a>> {
    match read {
        Ok(held) => Ok(Some(held)),
        Err(Fault::OutOfMemory) => Err(Fault::OutOfMemory),
        Err(fault) => {
            put_fault(fault, out)?;
            Ok(None)
        }
    }
}

/// Writes what is odd about a code table beside widths.
fn put_oddities<W: Write>(
    table: &CodeTable,
    widths: &Widths,
    out: &mut W,
) -> Result<(), CannotWrite> {
    if elevate_frame(table).is_none() {
        writeln!(
            out,
            "odd: the table has no elevate code: no line can be ended"
        )?;
    }
    if fitting_frame(table, widths).is_none() {
        let measure = widths.measure();
        writeln!(
            out,
            "odd: no matrix of the table fits the measure of {measure}"
        )?;
    }
    Ok(())
}

/// Writes what is wrong with the code table and the widths, and what is odd about them; whether nothing is wrong.
pub(crate) fn put_tables<'a, W: Write>(
    rt: &HostRuntime,
    config: &Config,
    out: &mut W,
) -> Result<bool, Fault<'a>> {
    let mut input = InputFile::at(rt, &config.table);
    let table = read_or_tell(read_table(rt.alloc(), &mut input, &config.table), out)?;
    let mut input = InputFile::at(rt, &config.widths);
    let widths = read_or_tell(read_widths(rt.alloc(), &mut input, &config.widths), out)?;
    let (Some(table), Some(widths)) = (&table, &widths) else {
        return Ok(false);
    };
    put_oddities(table, widths, out)?;
    Ok(true)
}

/// Writes whether there is a row file yet. It is not opened.
pub(crate) fn put_rows<W: Write>(
    rt: &HostRuntime,
    config: &Config,
    out: &mut W,
) -> Result<(), CannotWrite> {
    let path = config.rows.as_str();
    match fs::symlink_metadata(rt, path) {
        Ok(_) => {}
        Err(error) if error.kind() == ErrorKind::NotFound => {
            writeln!(
                out,
                "there is no {path} yet: circuitd create makes it, for a station that never ran"
            )?;
        }
        Err(_) => writeln!(out, "odd: {path} can't be looked at")?,
    }
    Ok(())
}
