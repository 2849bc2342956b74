//! A script, run with proxy, clients and servers as ends of TCP connections on 127.0.0.1, in one thread.
//!
//! The proxy's end is `serve_proxy`'s. Servers here answer as those of `cache_tcp` do, but the script sets their clock,
//! changes what they hold, and names the calls that fail; `Loop` turns them all by turns until a piece is done with.
#![tactic(auto)]

mod calls;
mod clients;
mod ends;
mod entries;
mod printing;
mod running;
mod servers;

pub use running::run_loopback;
