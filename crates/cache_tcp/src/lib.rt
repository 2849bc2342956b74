//! One memcached cache server over TCP, in one thread: many clients, both dialects, one cache.
//!
//! A turn of [`CacheEnd`] waits until a connection of its wire (`serve_wire`) is ready, accepts clients, and for each client that is ready
//! makes one read, answers what is whole, ask by ask and up to a backlog of 1 MiB, and makes one write. What a client is sent is proved
//! (`client`); the turn around it is only tested.
#![tactic(auto)]

pub mod client;
pub mod clock;
pub mod connection;
mod end;
pub mod room;
mod settings;

pub use end::CacheEnd;
pub use settings::Settings;
