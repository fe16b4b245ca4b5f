// Bytes on a link, before any server: packets.
#![tactic(auto)]

pub mod frame;
pub mod names;
pub mod plain;
