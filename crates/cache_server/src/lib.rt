//! One memcached server in memory: expiry, cas numbers, arithmetic.
//!
//! ```text
//! Ask --sweep: drops what has expired--> decide: by what is held --> decision: what is held then, and the Answer
//! ```
//!
//! `cache_tcp` serves it over sockets; `script_events` gives a script's servers one each.
#![tactic(auto)]

mod cache;
mod decide;
mod decision;
mod expiry;
mod item;
mod meta_answer;
mod sweep;

pub use cache::Cache;
