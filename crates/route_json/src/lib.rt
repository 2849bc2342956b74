//! Configurations: the tree of routes and the servers that a JSON text means, or its first fault; the names in it, and
//! its addresses.
#![tactic(auto)]

pub mod addresses;
pub mod config;
pub mod fault;
mod fields;
pub mod laws;
mod leaf;
pub mod limits;
pub mod names;
mod numbering;
pub mod one_pool;
mod place;
mod pools;
mod route;
mod selector;
mod table;

pub use addresses::Servers;
pub use config::{Config, read_config, read_config_after};
pub use fault::ConfigFault;
