//! One client command on a tree of routes: which server is called next, and what the client gets at the end.
#![tactic(auto)]

pub mod asks;
pub mod done;
pub mod entering;
pub mod formed_ask;
pub mod frame;
pub mod job;
pub mod replies;
pub mod returning;
pub mod walk;

pub use done::Done;
pub use formed_ask::FormedAsk;
pub use job::{Job, JobStep};
