//! A station's configuration: its keys in TOML, and the addresses of its circuit, where hosts may be named.
#![tactic(auto)]

mod address;
mod config;
mod config_file;
mod entry;
mod fault;
mod faults;
mod hosts;
mod keys;
mod stations;

pub use address::ip_of;
pub use config::{Config, WorkFolders};
pub use config_file::{ConfigInput, read_config};
pub use fault::{ConfigFault, ConfigKey};
pub use faults::faults_of;
pub use hosts::{Hosts, NoLookUp, Resolver, find_hosts};
