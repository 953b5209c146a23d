//! The protocol's definitions, in `specs/`. There is no code in this crate: its laws stand in `protocol_laws`.
#![tactic(auto)]
