//! The configuration of `mbsync`: stores, channels and groups (docs/FORMATS.md, "Configuration"); and what its command line asks for.
#![tactic(auto)]

pub mod advice;
mod advised_section;
mod allowed;
pub mod cells;
mod classes;
pub mod config;
mod draft;
mod first;
mod group;
mod isync;
mod names;
mod page;
pub mod read;
mod reading;
pub mod request;
mod section;
