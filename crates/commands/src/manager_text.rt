//! What a service manager is told of a station that runs.

use host_process::Manager;
use plant_status::StationId;
use std::alloc::{AllocError, Global};

/// That a station is up.
fn ready_text(alloc: Global, id: StationId) -> Result<String, AllocError> {
    format!(in alloc; "READY=1\nSTATUS={id}\n")
}

/// Tells that a station is up, where somebody wants to be told.
pub(crate) fn tell_ready(alloc: Global, manager: &Option<Manager>, id: StationId) {
    if let Some(manager) = manager
        && let Ok(text) = ready_text(alloc, id)
    {
        manager.tell(text.as_str());
    }
}

/// Whether a line of a status says what the station is about.
fn is_told(line: &str) -> bool {
    line.starts_with("released ") || line.starts_with("missing ")
}

/// The lines of a status that say what the station is about, as one.
fn status_line(alloc: Global, status: &str) -> Result<String, AllocError> {
    let mut text = "STATUS=".to_string(alloc)?;
    let mut before = "";
    for line in status.split('\n') {
        if is_told(line) {
            text.push_str(before)?;
            text.push_str(line)?;
            before = "; ";
        }
    }
    text.push_str("\n")?;
    Ok(text)
}

/// Tells how a station is, as its status says it.
pub(crate) fn tell_status(alloc: Global, manager: &Option<Manager>, status: &str) {
    if let Some(manager) = manager
        && let Ok(text) = status_line(alloc, status)
    {
        manager.tell(text.as_str());
    }
}
