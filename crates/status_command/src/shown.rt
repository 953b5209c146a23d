//! A status and whether it is well, as they are printed.

use host_folders::Worker;
use plant_status::{Health, LONG_MISSING, LONG_UNHEARD, OLD, Status, text_of};
use std::alloc::{AllocError, Global};

/// Puts something that is not well behind a text, where it is so.
fn put(text: &mut String, is_so: bool, what: &str, seconds: u64) -> Result<(), AllocError> {
    if is_so {
        write!(text, ", {what} for more than {seconds} seconds")
    } else {
        Ok(())
    }
}

/// Puts behind a text whether a station is well, in a line: what is not, if anything is.
fn put_health(text: &mut String, health: &Health) -> Result<(), AllocError> {
    if health.is_well() {
        return text.push_str("well\n");
    }
    text.push_str("not well")?;
    put(text, health.is_old, "not written", OLD)?;
    put(text, health.is_alone, "no majority heard", LONG_UNHEARD)?;
    put(text, health.is_missing, "something missing", LONG_MISSING)?;
    text.push_str("\n")
}

/// Puts behind a text which process holds the offers, in a line, where one does, or that the host does not tell.
fn put_worker(text: &mut String, worker: Option<Worker>) -> Result<(), AllocError> {
    match worker {
        Some(Worker::Process(process)) => writeln!(text, "process {process} holds offers"),
        Some(Worker::Unlisted) => text.push_str("the host does not list who holds offers\n"),
        Some(Worker::Nobody) | None => Ok(()),
    }
}

/// The text of a status, behind it which process holds the offers, and last the line that says whether it is well.
pub(crate) fn shown(
    alloc: Global,
    status: &Status,
    health: &Health,
    worker: Option<Worker>,
) -> Result<String, AllocError> {
    let mut text = text_of(alloc, status)?;
    put_worker(&mut text, worker)?;
    put_health(&mut text, health)?;
    Ok(text)
}
