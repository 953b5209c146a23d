//! The command `status`.

use crate::fault::{StatusFault, UntoldStatus};
use crate::file::status_at;
use crate::json::json_of;
use crate::shown::shown;
use crate::watching::{FRESH, watch};
use command_ends::{End, Fault, found_with, tell};
use configuration::{Config, ConfigInput, NoLookUp, read_config};
use host_folders::{WorkedOffers, Worker, worker_at};
use plant_status::{Health, Status, ages_of, health_of, seconds_now};
use std::io::{IsTerminal, Write};
use streams::{InputFile, hand_on, put_parts};

/// How a status is printed.
#[derive(Clone, Copy)]
pub enum Shape {
    /// By its lines.
    Lines,
    /// As one object of JSON.
    Json,
    /// By its lines, again each second, on a terminal.
    Watched,
}

/// Of which station it is asked how it stands: that of a configuration, which has its status file at a path; and in which shape it is told.
#[derive(Clone, Copy)]
pub(crate) struct StatusPlan<'c> {
    pub(crate) config: &'c Config,
    pub(crate) path: &'c str,
    pub(crate) shape: Shape,
}

/// What is not well of a station.
fn health_at(rt: &HostRuntime, status: &Status, config: &Config) -> Result<Health, StatusFault> {
    let Some(now) = seconds_now(rt) else {
        return Err(StatusFault::NoClock);
    };
    match ages_of(rt.alloc(), status, now)? {
        Some(ages) => Ok(health_of(&ages, config.catches_up)),
        None => Err(StatusFault::NoText),
    }
}

/// What works with the offers of the station of a configuration; `None` where they can't be looked at.
fn worker_of(rt: &HostRuntime, config: &Config) -> Option<Worker> {
    let Some(folders) = &config.folders else {
        return None;
    };
    let worked = WorkedOffers {
        offers: &folders.offers,
        rows: &config.rows,
    };
    worker_at(rt, worked).ok()
}

/// What a status tells, and whether its station is well.
fn told_by(
    rt: &HostRuntime,
    asked: StatusPlan<'_>,
    status: &Status,
) -> Result<(String, bool), StatusFault> {
    let health = health_at(rt, status, asked.config)?;
    let worker = worker_of(rt, asked.config);
    let text = match asked.shape {
        Shape::Json => json_of(rt.alloc(), status, &health, worker)?,
        Shape::Lines | Shape::Watched => shown(rt.alloc(), status, &health, worker)?,
    };
    Ok((text, health.is_well()))
}

/// How a station stands, as its status file tells; and whether it is well.
fn told_of(rt: &HostRuntime, asked: StatusPlan<'_>) -> Result<(String, bool), StatusFault> {
    let status = status_at(rt, asked.path, asked.config)?;
    told_by(rt, asked, &status)
}

/// Writes a text behind what stands before it, and hands it on.
fn put<W: Write>(before: &str, text: &str, out: &mut W) -> Result<(), StatusFault> {
    put_parts(out, &[before.as_bytes(), text.as_bytes()])?;
    hand_on(out)?;
    Ok(())
}

/// Prints how a station stands; whether it is well.
pub(crate) fn print<W: Write>(
    rt: &HostRuntime,
    asked: StatusPlan<'_>,
    out: &mut W,
) -> Result<bool, StatusFault> {
    let (text, is_well) = told_of(rt, asked)?;
    let before = match asked.shape {
        Shape::Watched => FRESH,
        Shape::Lines | Shape::Json => "",
    };
    put(before, text.as_str(), out)?;
    Ok(is_well)
}

/// Which file has the status of the station of a configuration, if it names one.
fn status_path(config: &Config) -> Option<&str> {
    match &config.folders {
        Some(folders) => match &folders.status {
            Some(path) => Some(path.as_str()),
            None => None,
        },
        None => None,
    }
}

/// Prints in a shape how the station of a configuration stands; whether it is well.
fn print_of<'c, W: Write>(
    rt: &HostRuntime,
    config: &'c Config,
    shape: Shape,
    out: &mut W,
) -> Result<bool, UntoldStatus<'c>> {
    let Some(path) = status_path(config) else {
        let fault = StatusFault::Unnamed;
        return Err(UntoldStatus::Status { path: "", fault });
    };
    let asked = StatusPlan {
        config,
        path,
        shape,
    };
    let printed = match shape {
        Shape::Watched => watch(rt, asked, out),
        Shape::Lines | Shape::Json => print(rt, asked, out),
    };
    match printed {
        Ok(is_well) => Ok(is_well),
        Err(fault) => Err(UntoldStatus::Status { path, fault }),
    }
}

/// What `status` is asked: where the configuration of a station is, and in which shape it is told how that stands.
#[derive(Clone, Copy)]
pub struct StatusOrder<'a> {
    pub config: &'a str,
    pub shape: Shape,
}

/// Tells how the station of the configuration at a path stands, as the status file that this names tells, and whether it is well: it ends as
/// done where it is, and as a fault of an input where it is not. Where nothing can be told it ends with 3.
pub fn status<W: Write, E: Write>(
    rt: &HostRuntime,
    order: StatusOrder<'_>,
    out: &mut W,
    err: &mut E,
) -> End {
    let shape = order.shape;
    if matches!(shape, Shape::Watched) && !rt.stdout().is_terminal() {
        return Fault::Usage("--watch is for a terminal").tell(err);
    }
    // Which hosts the stations are on is not asked.
    let file = ConfigInput {
        path: order.config,
        input: InputFile::at(rt, order.config),
    };
    let config = match read_config(rt.alloc(), &NoLookUp, file) {
        Ok(config) => config,
        Err(fault) => return tell(&UntoldStatus::Config(fault), err),
    };
    found_with(print_of(rt, &config, shape, out), err)
}
