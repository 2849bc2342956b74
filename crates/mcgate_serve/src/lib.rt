//! What a proxy that runs is: its turns, what is told of its servers and over HTTP, the
//! configurations that are loaded meanwhile, and how it begins after those of runs before.
#![tactic(auto)]

mod bad_texts;
pub mod build;
mod emptying;
pub mod histories;
mod link_news;
mod loading;
pub mod look_ups;
pub mod names;
pub mod operating;
mod orders;
pub mod seen;
mod server_news;
pub mod serving;
pub mod started;
pub mod starting;
pub mod watching;
