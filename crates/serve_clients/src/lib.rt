//! The clients of a proxy: each one's end, and which of them are to be served.
//!
//! ```text
//! client's wire --Conn--> bytes held --serve_links--> core_proxy --calls---> serve_links --Conn--> server's wire
//! client's wire <--Conn-- to_send <-----replies------ core_proxy <-outcomes- serve_links <--Conn-- server's wire
//! ```
//!
//! An end knows its connection by its number on the wire (`serve_wire`). `serve_proxy` turns all of them, in one
//! thread. A client that takes none of its replies isn't read while 1 MiB waits for it.
#![tactic(auto)]

mod clients;
mod departures;
mod places;

pub use clients::{Client, Clients, SHARE};
pub use departures::{DEPARTURES, Departure, Departures};
